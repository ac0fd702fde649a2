// Why a release is not rewritten.
ghost use Rattle.std.specs.Prelude.{◌≡◌};
ghost use Rattle.rewriting.specs.Refusals.{rewrite_refusal};
ghost use Rattle.rewriting.specs.declared.refusals.RewriteRefusal.TheVariants.{File};

use release::{FileRefusal, Refusal};

// Nothing is written in the wanted version, the release is refused itself, it has more names than the wanted version can have, or the output is
// shorter than the rewritten file.
#[derive(Clone, Copy, Debug, PartialEq, Eq)]
pub enum RewriteRefusal {
    NoVersion,
    File(FileRefusal),
    ManyNames,
    ShortOutput,
}

impl Refusal for RewriteRefusal {
    ghost numbers = { rewrite_refusal };

    fn number(self) -> u8 {
        match self {
            RewriteRefusal::NoVersion => 3,
            RewriteRefusal::File(refusal) => refusal.number(),
            RewriteRefusal::ManyNames => 40,
            RewriteRefusal::ShortOutput => 41,
        }
    }

    fn side(self) -> u8 {
        match self {
            RewriteRefusal::File(refusal) => refusal.side(),
            RewriteRefusal::ManyNames => 1,
            RewriteRefusal::NoVersion | RewriteRefusal::ShortOutput => 0,
        }
    }
}

impl From<FileRefusal> for RewriteRefusal {
    ghost from_gives = { λ refusal r. r ≡ File refusal };

    fn from(refusal: FileRefusal) -> Self {
        RewriteRefusal::File(refusal)
    }
}
