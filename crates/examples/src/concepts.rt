// Cases of the concept shown: first, second, signature, name, side, how many numbers are lent for rows, length of the work memory; number, side,
// 1 where a row is written, the numbers of the rows where just these will do, and how many bytes of the work memory are then zero. Each concept that
// is written is put through the check, and, where it is short enough, through the question.
use crate::cases::{Case, number_in};
use crate::memory;
use crate::memory::{MARK, ROOM};
use crate::texts::Text;
use crate::verdict::{Verdict, What, refusal_in, same, same_outcome};
use question::ask_position;
use release::ConceptName;
use witness::checking::check_concept;
use witness::showing::show_concept;

// How many numbers a case can lend for rows.
const NUMBERS: usize = 230000;

// What each of them is before the call: no row of an answer has this number.
const MARKED: u32 = u32::MAX;

// The numbers of a row, and the bytes of an expected number.
const ROW: usize = 3;

const NUMBER: usize = 4;

pub(crate) fn judge(case: &[u8]) -> Verdict {
    let case = Case::of(case, 12)?;
    let Case([_, _, _, _, _, numbers, work_length, ..]) = case;
    let mut rows = [MARKED; NUMBERS];
    let numbers = number_in(numbers);
    let Some(lent) = rows.get_mut(..numbers) else {
        return same(What::Length, NUMBERS, numbers);
    };
    let mut work = [0u8; ROOM];
    memory::lend(
        &mut work,
        number_in(work_length),
        |work| shown(case, lent, work),
    )
}

fn shown(case: Case, rows: &mut [u32], work: &mut [u8]) -> Verdict {
    let Case([first, second, signature, name, side, ..]) = case;
    let Case(
        [
            _,
            _,
            _,
            _,
            _,
            _,
            _,
            number,
            refused_side,
            written,
            expected,
            zeros,
            ..
        ],
    ) = case;
    let name = ConceptName(number_in(name));
    let answer = show_concept(first, second, signature, name, number_in(side), rows, work);
    let count = same_outcome(answer, refusal_in(number, refused_side))?.unwrap_or(0);
    same(What::Value, 0 < count, number_in(written))?;
    memory::zero_start(work, number_in(zeros))?;
    let Some((concept, rest)) = rows.split_at_checked(count.saturating_mul(ROW)) else {
        return same(What::Length, count, rows.len() / ROW);
    };
    for (place, number) in rest.iter().enumerate() {
        same(
            What::Row(count.saturating_add(place / ROW)),
            *number as usize,
            MARKED as usize,
        )?;
    }
    same_rows(concept, expected)?;
    confirmed(case, concept)
}

// Whether the rows are the expected ones, where any are expected.
fn same_rows(rows: &[u32], expected: &[u8]) -> Verdict {
    if expected.is_empty() {
        return Ok(());
    }
    same(What::Length, rows.len(), expected.len() / NUMBER)?;
    for (place, (number, bytes)) in rows.iter().zip(expected.chunks_exact(NUMBER)).enumerate() {
        same(What::Row(place / ROW), *number as usize, number_in(bytes))?;
    }
    Ok(())
}

// Whether the check, lent just these rows, says yes, and by the question the concept lies above the name (below it) by the first release and not by
// the second.
fn confirmed(case: Case, concept: &[u32]) -> Verdict {
    if concept.is_empty() {
        return Ok(());
    }
    let Case([first, second, signature, name, side, ..]) = case;
    let name = number_in(name);
    let side = number_in(side);
    let mut work = [MARK; ROOM];
    let answer = check_concept(
        first,
        second,
        signature,
        ConceptName(name),
        side,
        concept,
        &mut work,
    );
    if let Some(shows) = same_outcome(answer, None)? {
        same(What::Value, shows, true)?;
    }
    asked(first, name, side, concept, true)?;
    asked(second, name, side, concept, false)
}

// Whether the release lies the concept so. A concept that is too long to be asked about differs in nothing.
fn asked(file: &[u8], name: usize, side: usize, concept: &[u32], expected: bool) -> Verdict {
    let width = if file.get(3).copied() == Some(1) {
        1
    } else {
        2
    };
    let (Some(name), Some(concept)) = (Text::of_name(name, width), Text::of_rows(concept, width))
    else {
        return Ok(());
    };
    let (below, above) = if side == 1 {
        (name, concept)
    } else {
        (concept, name)
    };
    let mut work = [MARK; ROOM];
    let answer = ask_position(file, below.bytes(), above.bytes(), &mut work);
    if let Some(position) = same_outcome(answer, None)? {
        same(What::Value, position.is_below(), expected)?;
    }
    Ok(())
}
