// The whole file: its header, its axioms and its length.
ghost use Rattle.std.specs.Prelude.{◌≡◌, length};
ghost use Rattle.release.specs.Files.{axioms_of};
ghost use Rattle.release.specs.Versions.{width};
ghost use Rattle.rewriting.specs.Bytes.{axioms_bytes, header_of};
ghost use Rattle.rewriting.specs.Rewriting.{rewritten};
ghost use Rattle.output.specs.Places.{Put};

use crate::Rewriting;
use crate::numbers::put_number;
use output::put_text;
use release::number::Version;
use release::{Counts, Release};

// The header of a file of version 1 or 2, at the start of the output.
pub fn put_header(output: &mut [u8], version: Version, counts: Counts) -> usize
    ensures { Put output.old 0 (header_of (width version) counts.names counts.roles counts.axioms) output.new result }
{
    let after_mark = put_text(output, 0, &Release::MARK);
    let after_version = put_number(output, after_mark, Version::Two, version.width());
    let after_names = put_number(output, after_version, version, counts.names);
    let after_roles = put_number(output, after_names, Version::One, counts.roles);
    put_number(output, after_roles, version, counts.axioms)
}

impl<'a> Rewriting<'a> {
    // All axioms. The place is kept by hand: an axiom says where the next one starts, so no iterator gives it.
    fn put_axioms(&self, output: &mut [u8], at: usize) -> usize
        ensures { Put output.old at (axioms_bytes (width self.now.wanted) (axioms_of self.now.source.file.now)) output.new result }
    {
        let mut from = self.source.version.header_length();
        let mut next = at;
        for _axiom in 0..self.source.counts.axioms {
            next = self.put_axiom(from, output, next);
            from += self.source.version.axiom_length(self.source.file, from);
        }
        next
    }

    // How long the file becomes: an accepted file has 6 bytes, two for each axiom, and else only numbers of a name's width.
    pub(crate) fn length(&self) -> usize
        ensures { result ≡ length (rewritten (width self.now.wanted) self.now.source.file.now) }
    {
        let single = 6 + 2 * self.source.counts.axioms;
        let numbers = (self.source.file.len() - single) / self.source.version.width();
        single + self.wanted.width() * numbers
    }

    pub(crate) fn put_release(&self, output: &mut [u8]) -> usize
        ensures { Put output.old 0 (rewritten (width self.now.wanted) self.now.source.file.now) output.new result }
    {
        let after_header = put_header(output, self.wanted, self.source.counts);
        self.put_axioms(output, after_header)
    }
}
