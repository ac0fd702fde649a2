// Why a practice release is not made.
ghost use Rattle.practice.specs.Refusals.{practice_refusal};

use release::Refusal;

// More names than version 1 can have, more roles than a release can have; the output is shorter than the file.
#[derive(Clone, Copy, Debug, PartialEq, Eq)]
pub enum PracticeRefusal {
    ManyNames,
    ManyRoles,
    ShortOutput,
}

impl Refusal for PracticeRefusal {
    ghost numbers = { practice_refusal };

    fn number(self) -> u8 {
        match self {
            PracticeRefusal::ManyNames => 4,
            PracticeRefusal::ManyRoles => 5,
            PracticeRefusal::ShortOutput => 52,
        }
    }

    // No release is concerned.
    fn side(self) -> u8 {
        0
    }
}
