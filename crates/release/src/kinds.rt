// The kinds of an axiom.
ghost use Rattle.std.specs.Prelude.{◌≡◌};
ghost use Rattle.release.specs.Files.{joins, restricts};
ghost use Rattle.release.specs.Kinds.{kind_number, HasKindNumber};

use crate::refusals::FileRefusal;

// A ⊑ or A ≡, and on the right B1 ⊓ .. ⊓ Bk or ∃r.B.
#[derive(Clone, Copy, Debug, PartialEq, Eq)]
pub enum Kind {
    PrimitiveConjunction,
    DefinedConjunction,
    PrimitiveRestriction,
    DefinedRestriction,
}

impl Kind {
    pub fn is_conjunction(self) -> bool
        ensures { result ≡ joins (kind_number self) }
    {
        match self {
            Kind::PrimitiveConjunction | Kind::DefinedConjunction => true,
            Kind::PrimitiveRestriction | Kind::DefinedRestriction => false,
        }
    }

    pub fn is_restriction(self) -> bool
        ensures { result ≡ restricts (kind_number self) }
    {
        !self.is_conjunction()
    }
}

// The kind that a byte of the file stands for.
impl TryFrom<u8> for Kind {
    type Error = FileRefusal;

    ghost try_from_gives = { HasKindNumber };

    fn try_from(number: u8) -> Result<Self, FileRefusal> {
        match number {
            1 => Ok(Kind::PrimitiveConjunction),
            2 => Ok(Kind::DefinedConjunction),
            3 => Ok(Kind::PrimitiveRestriction),
            4 => Ok(Kind::DefinedRestriction),
            _ => Err(FileRefusal::WrongKind),
        }
    }
}
