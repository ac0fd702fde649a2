// How two concepts lie.
ghost use Rattle.std.specs.Prelude.{◌≡◌, ◌+◌, ◌*◌, ◌%◌};
ghost use Rattle.question.specs.Positions.{answer_number, position_number};

// Which of two concepts lies below the other by a release.
#[derive(Clone, Copy, Debug, PartialEq, Eq)]
pub enum Position {
    Incomparable,
    Below,
    Above,
    Equivalent,
}

impl Position {
    // By whether the first lies below the second, and the second below the first.
    pub fn of(below: bool, above: bool) -> Position
        ensures { position_number result ≡ answer_number below + 2 * answer_number above }
    {
        match (below, above) {
            (false, false) => Position::Incomparable,
            (true, false) => Position::Below,
            (false, true) => Position::Above,
            (true, true) => Position::Equivalent,
        }
    }

    // Whether the first lies below the second: the low bit of the number.
    pub fn is_below(self) -> bool
        ensures { answer_number result ≡ position_number self % 2 }
    {
        matches!(self, Position::Below | Position::Equivalent)
    }

    // As callers of other languages are told it.
    pub fn number(self) -> u8
        ensures { result ≡ position_number self }
    {
        match self {
            Position::Incomparable => 0,
            Position::Below => 1,
            Position::Above => 2,
            Position::Equivalent => 3,
        }
    }
}
