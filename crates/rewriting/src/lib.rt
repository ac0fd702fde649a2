// A release rewritten in version 1 or version 2 of the file. One with role pairs, in version 3, is not.
#![tactic(auto)]

ghost use Rattle.std.specs.Prelude.{◌≡◌, eqb, false};
ghost use Rattle.release.specs.Files.{width_of};
ghost use Rattle.release.specs.Readings.{counts_in};
ghost use Rattle.release.specs.Refusals.{told};
ghost use Rattle.release.specs.Versions.{width, has_pairs, said_version};
ghost use Rattle.rewriting.specs.Refusals.{rewrite_refusal};
ghost use Rattle.rewriting.specs.Rewriting.{Rewritable, RewritesAs};

pub use crate::file::put_header;
pub use crate::numbers::put_number;
pub use crate::refusals::RewriteRefusal;
use release::header::said_version;
use release::number::Version;
use release::{FileRefusal, Source, check_release};

mod axiom;
mod file;
mod numbers;
mod refusals;

// What is rewritten, an accepted file, and the version that is wanted.
#[derive(Clone, Copy, Debug, PartialEq, Eq)]
struct Rewriting<'a> {
    source: Source<'a>,
    wanted: Version,
    ghost accepted: { Rewritable source.file.now },
    ghost version: { width source.version ≡ width_of source.file.now },
    ghost plain: { has_pairs source.version ≡ false },
    ghost counts: { source.counts ≡ counts_in source.file.now },
}

// Whether a file says version 3.
fn says_pairs(file: &[u8]) -> bool
    ensures { result ≡ eqb (said_version file.now) 3 }
{
    said_version(file) == 3
}

// Writes a release as a file of the wanted version, 1 or 2, to the start of the output, and answers how long it is; a refusal changes
// nothing.
pub fn rewrite(file: &[u8], output: &mut [u8], version: Version) -> Result<usize, RewriteRefusal>
    ensures { RewritesAs version file.now output.old output.new (told rewrite_refusal result) }
{
    if version.has_pairs() {
        return Err(RewriteRefusal::NoVersion);
    }
    if says_pairs(file) {
        return Err(RewriteRefusal::File(FileRefusal::WrongVersion));
    }
    let counts = check_release(file)?;
    if version.most_names() < counts.names {
        return Err(RewriteRefusal::ManyNames);
    }
    let source = Source {
        file,
        version: Version::of(file),
        counts,
    };
    let rewriting = Rewriting {
        source,
        wanted: version,
    };
    let length = rewriting.length();
    if output.len() < length {
        return Err(RewriteRefusal::ShortOutput);
    }
    rewriting.put_release(output);
    Ok(length)
}
