// Cases of Question: file, below, above, length of the work memory; number, side, value, and how
// many bytes of the work memory are then zero.
use crate::cases::{Case, number_in};
use crate::memory;
use crate::memory::ROOM;
use crate::verdict::{Verdict, What, refusal_in, same, same_outcome};
use question::ask_position;

pub(crate) fn judge(case: &[u8]) -> Verdict {
    let case = Case::of(case, 8)?;
    let Case([_, _, _, work_length, ..]) = case;
    let mut work = [0u8; ROOM];
    memory::lend(&mut work, number_in(work_length), |work| asked(case, work))
}

fn asked(case: Case, work: &mut [u8]) -> Verdict {
    let Case([file, below, above, _, number, side, value, zeros, ..]) = case;
    let answer = ask_position(file, below, above, work);
    if let Some(position) = same_outcome(answer, refusal_in(number, side))? {
        same(What::Value, position.number(), number_in(value))?;
    }
    memory::zero_start(work, number_in(zeros))
}
