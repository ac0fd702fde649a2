// The refusals of a question.
ghost use Rattle.std.specs.Prelude.{◌≡◌};
ghost use Rattle.question.specs.Refusals.{ask_refusal};
ghost use Rattle.question.specs.declared.refusals.AskRefusal.TheVariants.{Release};

use release::{FileRefusal, Refusal};

// Why a question is refused: the release, a text that is no concept, or too little work memory.
#[derive(Clone, Copy, Debug, PartialEq, Eq)]
pub enum AskRefusal {
    Release(FileRefusal),
    WrongBelow,
    WrongAbove,
    ShortWork,
}

impl From<FileRefusal> for AskRefusal {
    ghost from_gives = { λ refusal e. e ≡ Release refusal };

    fn from(refusal: FileRefusal) -> Self {
        Self::Release(refusal)
    }
}

impl Refusal for AskRefusal {
    ghost numbers = { ask_refusal };

    fn number(self) -> u8 {
        match self {
            AskRefusal::Release(refusal) => refusal.number(),
            AskRefusal::WrongBelow | AskRefusal::WrongAbove => 19,
            AskRefusal::ShortWork => 32,
        }
    }

    fn side(self) -> u8 {
        match self {
            AskRefusal::Release(refusal) => refusal.side(),
            AskRefusal::WrongBelow => 1,
            AskRefusal::WrongAbove => 2,
            AskRefusal::ShortWork => 0,
        }
    }
}
