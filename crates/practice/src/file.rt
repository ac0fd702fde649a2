// The whole file: its header and its axioms.
ghost use Rattle.std.specs.Prelude.{◌≡◌, length};
ghost use Rattle.rewriting.specs.Bytes.{axioms_bytes};
ghost use Rattle.output.specs.Places.{Put};
ghost use Rattle.practice.specs.Practice.{practice_axioms, practice_file};

use crate::Practice;
use crate::draws::Draws;
use release::number::Version;
use release::{ConceptName, Counts};
use rewriting::put_header;

impl<'a> Practice<'a> {
    // How many names have an axiom.
    fn axiom_count(&self) -> usize
        ensures { result ≡ length (practice_axioms self.now.seed self.now.names self.now.roles) }
    {
        let mut kinds = Draws { state: self.seed };
        let mut count = 0;
        for _name in 0..self.names {
            let Some(kind) = kinds.kind(self.roles) else {
                continue;
            };
            if self.has_axiom(kind) {
                count += 1;
            }
        }
        count
    }

    // The kinds are drawn once more, each before the axiom of its name; the draws of the axioms come after those of all kinds.
    fn put_axioms(&self, output: &mut [u8], at: usize) -> usize
        ensures { Put output.old at (axioms_bytes 1 (practice_axioms self.now.seed self.now.names self.now.roles)) output.new result }
    {
        let mut kinds = Draws { state: self.seed };
        let mut draws = kinds.after(self.names);
        let mut next = at;
        for name in 0..self.names {
            let Some(kind) = kinds.kind(self.roles) else {
                continue;
            };
            if self.has_axiom(kind) {
                next = self.put_axiom(ConceptName(name), kind, &mut draws, output, next);
            }
        }
        next
    }

    pub(crate) fn put(&self, output: &mut [u8]) -> usize
        ensures { Put output.old 0 (practice_file self.now.seed self.now.names self.now.roles) output.new result }
    {
        let counts = Counts {
            names: self.names,
            roles: self.roles,
            axioms: self.axiom_count(),
        };
        let after_header = put_header(output, Version::One, counts);
        self.put_axioms(output, after_header)
    }
}
