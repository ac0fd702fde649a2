// A session as bytes of a fixed layout, for callers that lend it: the lengths of the two files, four bytes each with the low byte first, then
// all bytes of the files, of the signature and of the result.
#![tactic(auto)]

ghost use Rattle.std.specs.Prelude.{◌≡◌};
ghost use Rattle.editing.specs.Starting.{Starts};
ghost use Rattle.editing.specs.Steps.{Adding, Withdrawing};
ghost use Rattle.session_bytes.specs.Layout.{session_in, Storable, Stores, Lent};

use crate::reading::read_session;
use crate::written::write_session;
use editing::{EditRefusal, HeldFile, Session, Step};
use meanings::Compared;
use release::ConceptName;

pub mod readers;
pub mod reading;
pub mod written;

// The places in the layout. Constants of a type, so that a caller reads `Layout::LENGTH`.
#[derive(Clone, Copy, Debug, PartialEq, Eq)]
pub struct Layout {}

impl Layout {
    // Where the bytes of the files, of the signature and of the result start, and how many there are in all.
    pub const FIRST: usize = 8;

    pub const SECOND: usize = Layout::FIRST + HeldFile::LENGTH;

    pub const SIGNATURE: usize = Layout::SECOND + HeldFile::LENGTH;

    pub const RESULT: usize = Layout::SIGNATURE + Session::SIGNATURE;

    pub const LENGTH: usize = Layout::RESULT + Session::RESULT;
}

// The session of a step that is not refused takes the place of the lent one.
fn store(step: &Step, session: &mut [u8; Layout::LENGTH]) -> Result<Compared, EditRefusal>
    requires { Storable step.now }
    ensures { Stores step.now session.old session.new result }
{
    match step.answer {
        Ok(_) => {
            write_session(&step.session, session);
            step.answer
        }
        Err(_) => step.answer,
    }
}

// Starts a session: its bytes, where it is not refused.
pub fn start_session(
    first: &[u8],
    second: &[u8],
    signature: &[u8],
    session: &mut [u8; Layout::LENGTH],
    work: &mut [u8],
) -> Result<Compared, EditRefusal>
    ensures { Lent (Starts first.now second.now signature.now work.old work.new)
        session.old session.new result }
{
    let step = Session::start(first, second, signature, work);
    store(&step, session)
}

// Adds an axiom, given by its bytes, to a side.
pub fn add_axiom(
    session: &mut [u8; Layout::LENGTH],
    side: usize,
    text: &[u8],
    work: &mut [u8],
) -> Result<Compared, EditRefusal>
    ensures { Lent (Adding side text.now (session_in session.old) work.old work.new)
        session.old session.new result }
{
    let held = read_session(session);
    let step = held.add(side, text, work);
    store(&step, session)
}

// Withdraws a name's axiom from a side.
pub fn withdraw_axiom(
    session: &mut [u8; Layout::LENGTH],
    side: usize,
    name: ConceptName,
    work: &mut [u8],
) -> Result<Compared, EditRefusal>
    ensures { Lent (Withdrawing side name.0 (session_in session.old) work.old work.new)
        session.old session.new result }
{
    let held = read_session(session);
    let step = held.withdraw(side, name, work);
    store(&step, session)
}
