// The refusals of a sheet.
ghost use Rattle.std.specs.Prelude.{◌≡◌};
ghost use Rattle.release.specs.Refusals.{Numbers};
ghost use Rattle.branches.specs.Refusals.{sheet_refusal};
ghost use Rattle.meanings.specs.declared.refusals.CompareRefusal.TheVariants.{Signature};
ghost use Rattle.branches.specs.declared.refusals.SheetRefusal.TheVariants.{Comparison};

use meanings::CompareRefusal;
use release::Refusal;
use signature::SignatureRefusal;

// Why a sheet is refused: for what a comparison is refused too, for its rule, or for the number of branches or of rows.
#[derive(Clone, Copy, Debug, PartialEq, Eq)]
pub enum SheetRefusal {
    Comparison(CompareRefusal),
    NoRule,
    ManyBranches,
    FewRows,
}

impl Refusal for SheetRefusal {
    ghost numbers = { sheet_refusal };

    fn number(self) -> u8 {
        match self {
            SheetRefusal::Comparison(refusal) => refusal.number(),
            SheetRefusal::NoRule => 53,
            SheetRefusal::ManyBranches => 42,
            SheetRefusal::FewRows => 43,
        }
    }

    fn side(self) -> u8 {
        match self {
            SheetRefusal::Comparison(refusal) => refusal.side(),
            _ => 0,
        }
    }
}

impl From<CompareRefusal> for SheetRefusal {
    ghost from_gives = { λ refusal r. r ≡ Comparison refusal };

    fn from(refusal: CompareRefusal) -> SheetRefusal {
        SheetRefusal::Comparison(refusal)
    }
}

impl From<SignatureRefusal> for SheetRefusal {
    ghost from_gives = { λ refusal r. r ≡ Comparison (Signature refusal) };

    fn from(fault: SignatureRefusal) -> SheetRefusal {
        SheetRefusal::Comparison(CompareRefusal::from(fault))
    }
}
