// A session as a case gives it, lent as bytes: first, its length, second, its length, signature, result. All bytes past those given are marked.
use crate::cases::{Case, number_in};
use crate::memory::MARK;
use crate::verdict::{Verdict, same_bytes};
use editing::{HeldFile, Session};
use session_bytes::Layout;
use session_bytes::written::write_session;

// A session as bytes.
pub type Lent = [u8; Layout::LENGTH];

// These bytes over those that stand at the start.
fn over<const N: usize>(mut room: [u8; N], bytes: &[u8]) -> [u8; N] {
    for (place, byte) in room.iter_mut().zip(bytes.iter()) {
        *place = *byte;
    }
    room
}

// The session that the first fields of a case give.
pub(crate) fn given(case: Case) -> Session {
    let Case(
        [
            first,
            first_length,
            second,
            second_length,
            signature,
            result,
            ..
        ],
    ) = case;
    Session {
        first: HeldFile {
            bytes: over([MARK; HeldFile::LENGTH], first),
            length: number_in(first_length),
        },
        second: HeldFile {
            bytes: over([MARK; HeldFile::LENGTH], second),
            length: number_in(second_length),
        },
        signature: over([MARK; Session::SIGNATURE], signature),
        result: over([MARK; Session::RESULT], result),
    }
}

// The session of a start that is not refused.
pub(crate) fn started(first: &[u8], second: &[u8], signature: &[u8], bytes: &[u8]) -> Session {
    Session {
        first: HeldFile {
            bytes: over([0; HeldFile::LENGTH], first),
            length: first.len(),
        },
        second: HeldFile {
            bytes: over([0; HeldFile::LENGTH], second),
            length: second.len(),
        },
        signature: over([0; Session::SIGNATURE], signature),
        result: over([0; Session::RESULT], bytes),
    }
}

// The session with another file at the start of a side's bytes, and another result.
pub(crate) fn edited(mut session: Session, side: usize, file: &[u8], bytes: &[u8]) -> Session {
    let held = if side == 1 {
        session.first
    } else {
        session.second
    };
    let held = HeldFile {
        bytes: over(held.bytes, file),
        length: file.len(),
    };
    if side == 1 {
        session.first = held;
    } else {
        session.second = held;
    }
    session.result = over(session.result, bytes);
    session
}

// The bytes of a session.
pub(crate) fn lent(session: &Session) -> Lent {
    let mut bytes = [0u8; Layout::LENGTH];
    write_session(session, &mut bytes);
    bytes
}

// Compares lent bytes with a session's, each of them.
pub(crate) fn same_session(got: &[u8], expected: &Session) -> Verdict {
    same_bytes(got, &lent(expected))
}
