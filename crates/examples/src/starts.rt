// Cases of a session's start: first, second, signature, length of the work memory; number, side, result, and how many bytes of the work memory are
// then zero. A refused start leaves the lent session as it was.
use crate::cases::{Case, number_in};
use crate::memory;
use crate::memory::{MARK, ROOM};
use crate::sessions::{same_session, started};
use crate::verdict::{Verdict, refusal_in, same_bytes, same_outcome};
use session_bytes::{Layout, start_session};

pub(crate) fn judge(case: &[u8]) -> Verdict {
    let case = Case::of(case, 8)?;
    let Case([_, _, _, work_length, ..]) = case;
    let mut work = [0u8; ROOM];
    memory::lend(&mut work, number_in(work_length), |work| opened(case, work))
}

fn opened(case: Case, work: &mut [u8]) -> Verdict {
    let Case([first, second, signature, _, number, side, result, zeros, ..]) = case;
    let mut session = [MARK; Layout::LENGTH];
    let answer = start_session(first, second, signature, &mut session, work);
    match same_outcome(answer, refusal_in(number, side))? {
        Some(_) => same_session(&session, &started(first, second, signature, result))?,
        None => same_bytes(&session, &[MARK; Layout::LENGTH])?,
    }
    memory::zero_start(work, number_in(zeros))
}
