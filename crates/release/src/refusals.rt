// The refusals of a release file, and how callers of other languages are told a refusal.
ghost use Rattle.std.specs.Prelude.{◌≡◌};
ghost use Rattle.release.specs.Refusals.{Numbers, file_refusal};

// A refusal as it is told: its number, and the side of the release or concept concerned, else 0.
pub trait Refusal: Copy {
    ghost numbers: { Self → Numbers };

    fn number(self) -> u8
        ensures { result ≡ (numbers self).number };

    fn side(self) -> u8
        ensures { result ≡ (numbers self).side };
}

// Why a release file is refused. A file that meets several is refused for the one that stands first in it.
#[derive(Clone, Copy, Debug, PartialEq, Eq)]
pub enum FileRefusal {
    ShortFile,
    NoMark,
    WrongVersion,
    ManyNames,
    ManyRoles,
    ManyAxioms,
    EndOfFile,
    WrongKind,
    WrongName,
    LeftNamesNotRising,
    WrongRole,
    ManyConjuncts,
    ConjunctsNotRising,
    BytesLeftOver,
    DefinedConjunct,
    PairsNotRising,
}

impl Refusal for FileRefusal {
    ghost numbers = { file_refusal };

    fn number(self) -> u8 {
        match self {
            FileRefusal::ShortFile => 1,
            FileRefusal::NoMark => 2,
            FileRefusal::WrongVersion => 3,
            FileRefusal::ManyNames => 4,
            FileRefusal::ManyRoles => 5,
            FileRefusal::ManyAxioms => 6,
            FileRefusal::EndOfFile => 7,
            FileRefusal::WrongKind => 8,
            FileRefusal::WrongName => 9,
            FileRefusal::LeftNamesNotRising => 10,
            FileRefusal::WrongRole => 11,
            FileRefusal::ManyConjuncts => 12,
            FileRefusal::ConjunctsNotRising => 13,
            FileRefusal::BytesLeftOver => 14,
            FileRefusal::DefinedConjunct => 15,
            FileRefusal::PairsNotRising => 49,
        }
    }

    // The release that a call has alone is on side 1.
    fn side(self) -> u8 {
        1
    }
}
