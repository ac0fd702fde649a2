// What comes of a case: the answer is the expected one, or the first thing that differs.
use crate::cases::number_in;
use release::Refusal;
use std::fmt;

// What an answer tells, and by which a difference is named.
#[derive(Clone, Copy, Debug, PartialEq, Eq)]
pub enum What {
    Fields,
    Accepted,
    Number,
    Side,
    Names,
    Roles,
    Axioms,
    File,
    Start,
    Length,
    Value,
    Byte(usize),
    Work(usize),
    Row(usize),
}

impl fmt::Display for What {
    fn fmt<W: fmt::Write>(&self, f: &mut fmt::Formatter<W>) -> fmt::Result {
        match self {
            What::Fields => write!(f, "fields"),
            What::Accepted => write!(f, "accepted"),
            What::Number => write!(f, "number"),
            What::Side => write!(f, "side"),
            What::Names => write!(f, "names"),
            What::Roles => write!(f, "roles"),
            What::Axioms => write!(f, "axioms"),
            What::File => write!(f, "file"),
            What::Start => write!(f, "start"),
            What::Length => write!(f, "length"),
            What::Value => write!(f, "value"),
            What::Byte(place) => write!(f, "byte {place}"),
            What::Work(place) => write!(f, "work byte {place}"),
            What::Row(place) => write!(f, "row {place}"),
        }
    }
}

// What differs, with the number that the answer has there and the one that is expected.
#[derive(Clone, Copy, Debug, PartialEq, Eq)]
pub struct Difference {
    pub what: What,
    pub got: usize,
    pub expected: usize,
}

impl fmt::Display for Difference {
    fn fmt<W: fmt::Write>(&self, f: &mut fmt::Formatter<W>) -> fmt::Result {
        write!(f, "{} {}, expected {}", self.what, self.got, self.expected)
    }
}

pub type Verdict = Result<(), Difference>;

// Compares numbers, bytes or truths: a difference tells each as a number, a truth as 1 or 0.
pub(crate) fn same<Got: Into<usize>, Wanted: Into<usize>>(
    what: What,
    got: Got,
    expected: Wanted,
) -> Verdict {
    let got = got.into();
    let expected = expected.into();
    if got == expected {
        return Ok(());
    }
    Err(Difference {
        what,
        got,
        expected,
    })
}

// A refusal as a case expects it: a number and a side as the data file has them, and no enum, since each call has one of its own.
#[derive(Clone, Copy, Debug, PartialEq, Eq)]
pub struct Expected {
    pub number: usize,
    pub side: usize,
}

// The refusal that a case expects, by two of its fields: none where the number is 0, since the call is then to be accepted.
pub(crate) fn refusal_in(number: &[u8], side: &[u8]) -> Option<Expected> {
    let number = number_in(number);
    let side = number_in(side);
    (number != 0).then_some(Expected { number, side })
}

// What a call answers, if it is accepted as expected; none where it is refused as expected.
pub(crate) fn same_outcome<A: Drop, R: Refusal>(
    answer: Result<A, R>,
    expected: Option<Expected>,
) -> Result<Option<A>, Difference> {
    match (answer, expected) {
        (Ok(value), None) => Ok(Some(value)),
        (Ok(_), Some(expected)) => Err(Difference {
            what: What::Number,
            got: 0,
            expected: expected.number,
        }),
        (Err(_), None) => Err(Difference {
            what: What::Accepted,
            got: 0,
            expected: 1,
        }),
        (Err(refusal), Some(expected)) => {
            same(What::Number, refusal.number(), expected.number)?;
            same(What::Side, refusal.side(), expected.side)?;
            Ok(None)
        }
    }
}

// Compares the lengths, and then byte by byte.
pub(crate) fn same_bytes(got: &[u8], expected: &[u8]) -> Verdict {
    same(What::Length, got.len(), expected.len())?;
    for (place, (left, right)) in got.iter().zip(expected.iter()).enumerate() {
        same(What::Byte(place), *left, *right)?;
    }
    Ok(())
}
