// The refusals of a comparison of releases.
ghost use Rattle.std.specs.Prelude.{◌≡◌};
ghost use Rattle.release.specs.Refusals.{Numbers};
ghost use Rattle.meanings.specs.Refusals.{compare_refusal};
ghost use Rattle.meanings.specs.declared.refusals.CompareRefusal.TheVariants.{Signature};

use release::{FileRefusal, Refusal};
use signature::SignatureRefusal;

// Why a comparison is refused: the first of these that is met, in this order.
#[derive(Clone, Copy, Debug, PartialEq, Eq)]
pub enum CompareRefusal {
    First(FileRefusal),
    Second(FileRefusal),
    DifferentCounts,
    Signature(SignatureRefusal),
    ShortResult,
    ShortRoleResult,
    ShortWork,
}

impl Refusal for CompareRefusal {
    ghost numbers = { compare_refusal };

    fn number(self) -> u8 {
        match self {
            CompareRefusal::First(refusal) | CompareRefusal::Second(refusal) => refusal.number(),
            CompareRefusal::DifferentCounts => 16,
            CompareRefusal::Signature(refusal) => refusal.number(),
            CompareRefusal::ShortResult => 31,
            CompareRefusal::ShortRoleResult => 50,
            CompareRefusal::ShortWork => 32,
        }
    }

    fn side(self) -> u8 {
        match self {
            CompareRefusal::First(_) => 1,
            CompareRefusal::Second(_) => 2,
            _ => 0,
        }
    }
}

impl From<SignatureRefusal> for CompareRefusal {
    ghost from_gives = { λ refusal r. r ≡ Signature refusal };

    fn from(fault: SignatureRefusal) -> CompareRefusal {
        CompareRefusal::Signature(fault)
    }
}
