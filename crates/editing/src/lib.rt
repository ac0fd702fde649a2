// Editing while the difference is shown: a session holds two releases of version 1, a signature and the result of their comparison. Its
// steps add an axiom to a release or withdraw one, and compare again.
#![tactic(auto)]

ghost use Rattle.editing.specs.Judging.{HandsBack};
ghost use Rattle.editing.specs.Starting.{Starts};
ghost use Rattle.editing.specs.Steps.{Adding, Withdrawing};

pub use crate::held::HeldFile;
pub use crate::refusals::EditRefusal;
pub use crate::sides::Side;
use meanings::Compared;
use release::{ConceptName, Release};

mod held;
mod judging;
mod reading;
mod refusals;
mod sides;
mod starting;
mod steps;

// Two files, the signature's bytes (as many as the releases have names and roles) and the result bytes (as many as names). It is handed over by
// value, so all of it stands in arrays, and any bytes may stand in them: a step and a reader suppose nothing of it.
#[derive(Clone, Copy, Debug, PartialEq, Eq)]
pub struct Session {
    pub first: HeldFile,
    pub second: HeldFile,
    pub signature: [u8; Session::SIGNATURE],
    pub result: [u8; Session::RESULT],
}

// What a step answers, and the next session.
#[derive(Clone, Copy, Debug, PartialEq, Eq)]
pub struct Step {
    pub answer: Result<Compared, EditRefusal>,
    pub session: Session,
}

impl Session {
    pub const SIGNATURE: usize = Release::NAMES_1 + Release::ROLES;

    pub const RESULT: usize = Release::NAMES_1;

    // The step from this session that answered so and made the next one: where it was refused, this one is handed back.
    fn hand_back(self, next: Session, answer: Result<Compared, EditRefusal>) -> Step
        ensures { HandsBack self next answer result }
    {
        match answer {
            Ok(_) => Step {
                answer,
                session: next,
            },
            Err(_) => Step {
                answer,
                session: self,
            },
        }
    }

    // Starts a session from two releases and a signature. A refused one is that of no names and no roles.
    pub fn start(first: &[u8], second: &[u8], signature: &[u8], work: &mut [u8]) -> Step
        ensures { Starts first.now second.now signature.now work.old work.new result }
    {
        let empty = Session::empty();
        let mut next = empty;
        let answer = next.open(first, second, signature, work);
        empty.hand_back(next, answer)
    }

    // Adds an axiom, given by its bytes, to a side. A side is any number, as C may pass any.
    pub fn add(self, side: usize, text: &[u8], work: &mut [u8]) -> Step
        ensures { Adding side text.now self work.old work.new result }
    {
        let mut next = self;
        let answer = next.add_axiom(side, text, work);
        self.hand_back(next, answer)
    }

    // Withdraws a name's axiom from a side.
    pub fn withdraw(self, side: usize, name: ConceptName, work: &mut [u8]) -> Step
        ensures { Withdrawing side name.0 self work.old work.new result }
    {
        let mut next = self;
        let answer = next.withdraw_axiom(side, name, work);
        self.hand_back(next, answer)
    }
}
