// Cases of a step: a session, side, the axiom added, the name withdrawn, which is empty where an axiom is added, length of the work memory; number,
// side, the side's file, result, and how many bytes of the work memory are then zero. All other bytes of the session stay.
use crate::cases::{Case, number_in};
use crate::memory;
use crate::memory::ROOM;
use crate::sessions::{edited, given, lent, same_session};
use crate::verdict::{Verdict, refusal_in, same_outcome};
use release::ConceptName;
use session_bytes::{add_axiom, withdraw_axiom};

pub(crate) fn judge(case: &[u8]) -> Verdict {
    let case = Case::of(case, 15)?;
    let Case([_, _, _, _, _, _, _, _, _, work_length, ..]) = case;
    let mut work = [0u8; ROOM];
    memory::lend(
        &mut work,
        number_in(work_length),
        |work| stepped(case, work),
    )
}

fn stepped(case: Case, work: &mut [u8]) -> Verdict {
    let Case([_, _, _, _, _, _, side, text, name, ..]) = case;
    let Case(
        [
            _,
            _,
            _,
            _,
            _,
            _,
            _,
            _,
            _,
            _,
            number,
            refused_side,
            file,
            result,
            ..
        ],
    ) = case;
    let side = number_in(side);
    let before = given(case);
    let mut session = lent(&before);
    let answer = if name.is_empty() {
        add_axiom(&mut session, side, text, work)
    } else {
        let name = ConceptName(number_in(name));
        withdraw_axiom(&mut session, side, name, work)
    };
    match same_outcome(answer, refusal_in(number, refused_side))? {
        Some(_) => same_session(&session, &edited(before, side, file, result))?,
        None => same_session(&session, &before)?,
    }
    let Case([_, _, _, _, _, _, _, _, _, _, _, _, _, _, zeros]) = case;
    memory::zero_start(work, number_in(zeros))
}
