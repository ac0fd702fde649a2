// The refusals of the station.
ghost use Rattle.std.specs.Prelude.{◌≡◌};
ghost use Rattle.release.specs.Refusals.{Numbers};
ghost use Rattle.witness.specs.Refusals.{show_refusal};
ghost use Rattle.meanings.specs.declared.refusals.CompareRefusal.TheVariants.{Signature};
ghost use Rattle.witness.specs.declared.refusals.ShowRefusal.TheVariants.{Comparison};

use meanings::CompareRefusal;
use release::Refusal;
use signature::SignatureRefusal;

// Why no concept is written: for what a comparison is refused too, or since too few rows are lent. The check has no refusal of its own.
#[derive(Clone, Copy, Debug, PartialEq, Eq)]
pub enum ShowRefusal {
    Comparison(CompareRefusal),
    FewRows,
}

impl Refusal for ShowRefusal {
    ghost numbers = { show_refusal };

    fn number(self) -> u8 {
        match self {
            ShowRefusal::Comparison(refusal) => refusal.number(),
            ShowRefusal::FewRows => 44,
        }
    }

    fn side(self) -> u8 {
        match self {
            ShowRefusal::Comparison(refusal) => refusal.side(),
            ShowRefusal::FewRows => 0,
        }
    }
}

impl From<CompareRefusal> for ShowRefusal {
    ghost from_gives = { λ refusal r. r ≡ Comparison refusal };

    fn from(refusal: CompareRefusal) -> ShowRefusal {
        ShowRefusal::Comparison(refusal)
    }
}

impl From<SignatureRefusal> for ShowRefusal {
    ghost from_gives = { λ refusal r. r ≡ Comparison (Signature refusal) };

    fn from(fault: SignatureRefusal) -> ShowRefusal {
        ShowRefusal::Comparison(CompareRefusal::from(fault))
    }
}
