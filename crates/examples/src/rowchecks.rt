// Cases of the check of a concept: first, second, signature, name, side, the numbers of the rows, length of the work memory; number, side, 1 for yes,
// and how many bytes of the work memory are then zero.
use crate::cases::{Case, number_in};
use crate::memory;
use crate::memory::ROOM;
use crate::verdict::{Verdict, What, refusal_in, same, same_outcome};
use release::ConceptName;
use std::array;
use witness::checking::check_concept;

// How many numbers a case can lend for rows, and the bytes of each.
const NUMBERS: usize = 640;

const NUMBER: usize = 4;

pub(crate) fn judge(case: &[u8]) -> Verdict {
    let case = Case::of(case, 11)?;
    let Case([_, _, _, _, _, numbers, work_length, ..]) = case;
    let rows: [u32; NUMBERS] = array::from_fn(|place| row_number(numbers, place));
    let count = numbers.len() / NUMBER;
    let Some(rows) = rows.get(..count) else {
        return same(What::Length, NUMBERS, count);
    };
    let mut work = [0u8; ROOM];
    memory::lend(
        &mut work,
        number_in(work_length),
        |work| checked(case, rows, work),
    )
}

fn checked(case: Case, rows: &[u32], work: &mut [u8]) -> Verdict {
    let Case([first, second, signature, name, side, ..]) = case;
    let Case([_, _, _, _, _, _, _, number, refused_side, value, zeros, ..]) = case;
    let name = ConceptName(number_in(name));
    let answer = check_concept(first, second, signature, name, number_in(side), rows, work);
    if let Some(shows) = same_outcome(answer, refusal_in(number, refused_side))? {
        same(What::Value, shows, number_in(value))?;
    }
    memory::zero_start(work, number_in(zeros))
}

// The number at a place of the field.
fn row_number(numbers: &[u8], place: usize) -> u32 {
    let bytes = numbers.chunks_exact(NUMBER).nth(place).unwrap_or(&[]);
    u32::try_from(number_in(bytes)).unwrap_or(u32::MAX)
}
