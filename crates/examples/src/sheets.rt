// Cases of the sheet: first, second, how many signatures, the number of the rule, the signatures, how many rows, length of the
// work memory; number, side, the rows filled, each four numbers of two bytes, and how many bytes of the
// work memory are then zero. Each row is also held to a single comparison over its signature.
use crate::cases::{Case, number_in};
use crate::memory;
use crate::memory::ROOM;
use crate::verdict::{Verdict, What, refusal_in, same, same_outcome};
use branches::judging::Sheet;
use branches::row::Row;
use branches::values::{Filled, fill_part};
use meanings::compare_releases;
use release::Release;
use std::iter;

// The bytes of an expected row, and of a number in it.
const ROW: usize = 8;

const NUMBER: usize = 2;

// The bytes of the longest role result.
const ROLE_PAIRS: usize = Release::ROLES * Release::ROLES;

// What a row holds before the call: no answer has these numbers.
const MARKED: Row = Row {
    chosen: u32::MAX,
    left: u32::MAX,
    right: u32::MAX,
    share: u32::MAX,
};

pub(crate) fn judge(case: &[u8]) -> Verdict {
    let case = Case::of(case, 11)?;
    let Case([_, _, _, _, _, _, work_length, ..]) = case;
    let mut work = [0u8; ROOM];
    memory::lend(&mut work, number_in(work_length), |work| filled(case, work))
}

// Fills as many rows as are lent; the others are there to be seen unchanged. A sheet has no use for more
// than there can be branches.
fn filled(case: Case, work: &mut [u8]) -> Verdict {
    let Case([first, second, count, rule, signatures, rows, ..]) = case;
    let Case([_, _, _, _, _, _, _, number, side, expected, zeros, ..]) = case;
    let filled = fill_part(
        first,
        second,
        signatures,
        number_in(count),
        number_in(rule),
        work,
        [MARKED; Sheet::BRANCHES],
        number_in(rows).min(Sheet::BRANCHES),
    );
    same_outcome(filled.answer, refusal_in(number, side))?;
    memory::zero_start(work, number_in(zeros))?;
    same_rows(expected, &filled.rows)?;
    single_rows(case, filled)
}

// By `as`: there is no From that makes a usize of 32 bits.
fn same_row(branch: usize, got: Row, expected: Row) -> Verdict {
    let numbers = [
        (got.chosen, expected.chosen),
        (got.left, expected.left),
        (got.right, expected.right),
        (got.share, expected.share),
    ];
    for (got, expected) in numbers {
        same(What::Row(branch), got as usize, expected as usize)?;
    }
    Ok(())
}

// Whether the first rows are the expected ones, and all later ones as they were.
fn same_rows(expected: &[u8], rows: &[Row; Sheet::BRANCHES]) -> Verdict {
    let expected = expected
        .chunks_exact(ROW)
        .map(expected_row)
        .chain(iter::repeat(MARKED));
    for (branch, (row, expected)) in rows.iter().zip(expected).enumerate() {
        same_row(branch, *row, expected)?;
    }
    Ok(())
}

// An expected row, of which each number has two bytes.
fn expected_row(bytes: &[u8]) -> Row {
    let number = |place: usize| {
        let number = bytes.chunks_exact(NUMBER).nth(place).unwrap_or(&[]);
        u32::try_from(number_in(number)).unwrap_or(u32::MAX)
    };
    Row {
        chosen: number(0),
        left: number(1),
        right: number(2),
        share: number(3),
    }
}

// Whether each row that is filled is what a single comparison over its signature tells. The signatures are cut by hand: `chunks_exact`
// asks for a length above 0, and releases may have neither names nor roles.
fn single_rows(case: Case, filled: Filled) -> Verdict {
    let Case([_, _, _, _, signatures, _, _, _, _, expected, ..]) = case;
    let Ok(counts) = filled.answer else {
        return Ok(());
    };
    let length = usize::from(counts.names) + usize::from(counts.roles);
    let rows_filled = expected.len() / ROW;
    for (branch, row) in filled.rows.iter().take(rows_filled).enumerate() {
        let end = branch * length + length;
        let Some(signature) = signatures.get(branch * length..end) else {
            return same(What::Length, signatures.len(), end);
        };
        same_row(
            branch,
            *row,
            single_row(case, signature, usize::from(counts.names)),
        )?;
    }
    Ok(())
}

// The row by a single comparison, counted name by name.
fn single_row(case: Case, signature: &[u8], names: usize) -> Row {
    let Case([first, second, _, rule, ..]) = case;
    let mut result_bytes = [0u8; Release::NAMES];
    let mut role_result = [0u8; ROLE_PAIRS];
    let mut work = [0u8; ROOM];
    let _answer = compare_releases(
        first,
        second,
        signature,
        &mut result_bytes,
        &mut role_result,
        &mut work,
    );
    let told = &result_bytes[..names.min(Release::NAMES)];
    let chosen = count(&signature[..names.min(signature.len())], |byte| byte == 1);
    let reported = count(told, |byte| 0 < byte);
    Row {
        chosen,
        left: count(told, |byte| byte % 2 == 1),
        right: count(told, |byte| 2 <= byte),
        share: share(reported, chosen, number_in(rule)),
    }
}

// The share in thousandths: rounded down, and by rule 2 one more where more than a half is left over, or just a half after an odd number.
fn share(reported: u32, chosen: u32, rule: usize) -> u32 {
    let thousandths = reported.saturating_mul(1000);
    let down = thousandths.checked_div(chosen).unwrap_or(0);
    let left_over = thousandths.saturating_sub(down.saturating_mul(chosen));
    let twice = left_over.saturating_mul(2);
    if rule == 2 && (chosen < twice || chosen == twice && down % 2 == 1) {
        return down.saturating_add(1);
    }
    down
}

// How many of the bytes pass the test.
fn count<T: Fn(u8) -> bool>(bytes: &[u8], test: T) -> u32
    requires { T.IsAlwaysCallable test }
{
    let passed = bytes.iter().filter(|byte| test(**byte)).count();
    u32::try_from(passed).unwrap_or(u32::MAX)
}
