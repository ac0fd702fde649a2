// Refusals of numbers that a caller passes.
ghost use Rattle.exported.specs.Codes.{number_refusal};

use release::Refusal;

// A wanted version that is neither 1 nor 2; more names than there can be.
#[derive(Clone, Copy, Debug, PartialEq, Eq)]
pub enum NumberRefusal {
    NoVersion,
    ManyNames,
}

impl Refusal for NumberRefusal {
    ghost numbers = { number_refusal };

    fn number(self) -> u8 {
        match self {
            NumberRefusal::NoVersion => 3,
            NumberRefusal::ManyNames => 4,
        }
    }

    // Neither release is concerned.
    fn side(self) -> u8 {
        0
    }
}
