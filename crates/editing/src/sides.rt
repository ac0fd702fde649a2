// The sides of a session.
ghost use Rattle.std.specs.Prelude.{◌≡◌, false, MatchOption};
ghost use Rattle.release.specs.Refusals.{file_number};
ghost use Rattle.editing.specs.Refusals.{side_number, edit_refusal};
ghost use Rattle.editing.specs.Sessions.{is_side, file_on, with_file};

use crate::{EditRefusal, HeldFile, Session};
use meanings::CompareRefusal;
use release::FileRefusal;

#[derive(Clone, Copy, Debug, PartialEq, Eq)]
pub enum Side {
    First,
    Second,
}

impl Side {
    // The side that a number stands for.
    pub(crate) fn of(number: usize) -> Option<Side>
        ensures { MatchOption result (is_side number ≡ false) (λ side. side_number side ≡ number) }
    {
        match number {
            1 => Some(Side::First),
            2 => Some(Side::Second),
            _ => None,
        }
    }

    // A refusal of what stands on this side.
    pub(crate) fn refuse(self, refusal: FileRefusal) -> EditRefusal
        ensures { edit_refusal result ≡ record { number = file_number refusal; side = side_number self } }
    {
        let refused = match self {
            Side::First => CompareRefusal::First(refusal),
            Side::Second => CompareRefusal::Second(refusal),
        };
        EditRefusal::Comparison(refused)
    }
}

impl Session {
    // The file held on a side.
    #[tactic(auto, unfolding(crate::specs::Sessions::file_on))]
    pub(crate) fn held(&self, side: Side) -> &HeldFile
        ensures { result.now ≡ file_on (side_number side) self.now }
    {
        match side {
            Side::First => &self.first,
            Side::Second => &self.second,
        }
    }

    // Holds another file on a side.
    #[tactic(auto, unfolding(crate::specs::Sessions::with_file))]
    pub(crate) fn hold(&mut self, side: Side, file: HeldFile)
        ensures { self.new ≡ with_file (side_number side) file self.old }
    {
        match side {
            Side::First => self.first = file,
            Side::Second => self.second = file,
        }
    }
}
