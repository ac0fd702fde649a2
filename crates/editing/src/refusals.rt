// The refusals of a session's start and of its steps.
ghost use Rattle.std.specs.Prelude.{◌≡◌};
ghost use Rattle.editing.specs.Refusals.{edit_refusal};
ghost use Rattle.meanings.specs.declared.refusals.CompareRefusal.TheVariants.{Signature};
ghost use Rattle.editing.specs.declared.refusals.EditRefusal.TheVariants.{Comparison};

use crate::Side;
use meanings::CompareRefusal;
use release::Refusal;
use signature::SignatureRefusal;

// Why a session is not started, or a step not taken: as a comparison is refused, where an axiom's bytes are refused as the file of their side;
// there is no such side, or what the session holds cannot be compared; the name has an axiom already; it has none.
#[derive(Clone, Copy, Debug, PartialEq, Eq)]
pub enum EditRefusal {
    Comparison(CompareRefusal),
    NotEditable,
    NameTaken(Side),
    NameFree(Side),
}

impl Refusal for EditRefusal {
    ghost numbers = { edit_refusal };

    fn number(self) -> u8 {
        match self {
            EditRefusal::Comparison(refusal) => refusal.number(),
            EditRefusal::NotEditable => 46,
            EditRefusal::NameTaken(_) => 47,
            EditRefusal::NameFree(_) => 48,
        }
    }

    fn side(self) -> u8 {
        match self {
            EditRefusal::Comparison(refusal) => refusal.side(),
            EditRefusal::NotEditable => 0,
            EditRefusal::NameTaken(side) | EditRefusal::NameFree(side) => match side {
                Side::First => 1,
                Side::Second => 2,
            },
        }
    }
}

impl From<CompareRefusal> for EditRefusal {
    ghost from_gives = { λ refusal r. r ≡ Comparison refusal };

    fn from(refusal: CompareRefusal) -> Self {
        EditRefusal::Comparison(refusal)
    }
}

impl From<SignatureRefusal> for EditRefusal {
    ghost from_gives = { λ refusal r. r ≡ Comparison (Signature refusal) };

    fn from(refusal: SignatureRefusal) -> Self {
        EditRefusal::Comparison(CompareRefusal::from(refusal))
    }
}
