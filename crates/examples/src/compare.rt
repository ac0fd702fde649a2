// Cases of Compare: first, second, signature, lengths of the result, the role result and the work
// memory; number, side, the first bytes of the result and of the role result, and how many bytes of the
// work memory are then zero.
use crate::cases::{Case, number_in};
use crate::memory;
use crate::memory::ROOM;
use crate::verdict::{Verdict, refusal_in, same_outcome};
use meanings::compare_releases;

// How much memory a case can lend for the role result.
const ROLE_ROOM: usize = 2048;

pub(crate) fn judge(case: &[u8]) -> Verdict {
    let case = Case::of(case, 11)?;
    let Case([_, _, _, result_length, role_length, work_length, ..]) = case;
    let mut result_bytes = [0u8; ROOM];
    let mut role_result = [0u8; ROLE_ROOM];
    let mut work = [0u8; ROOM];
    memory::lend(
        &mut result_bytes,
        number_in(result_length),
        |result_bytes| {
            memory::lend(&mut role_result, number_in(role_length), |role_result| {
                memory::lend(
                    &mut work,
                    number_in(work_length),
                    |work| compared(case, result_bytes, role_result, work),
                )
            })
        },
    )
}

fn compared(
    case: Case,
    result_bytes: &mut [u8],
    role_result: &mut [u8],
    work: &mut [u8],
) -> Verdict {
    let Case([first, second, signature, ..]) = case;
    let Case([_, _, _, _, _, _, number, side, start, pairs, zeros, ..]) = case;
    let answer = compare_releases(first, second, signature, result_bytes, role_result, work);
    same_outcome(answer, refusal_in(number, side))?;
    memory::same_start(result_bytes, start)?;
    memory::same_start(role_result, pairs)?;
    memory::zero_start(work, number_in(zeros))
}
