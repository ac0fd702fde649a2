// Rows from any editor, checked.
ghost use Rattle.witness.specs.Checking.{CheckedAs};
ghost use Rattle.witness.specs.Deciding.{ToDecide, Decided, ToCheckCleared, CheckAnswered, ToCheck, RowsChecked};

use crate::asked::{Asked, Side};
use crate::judging::judge_check;
use crate::lent::row_count;
use comparison::Releases;
use meanings::{CompareRefusal, read_releases};
use release::ConceptName;
use release::table::Table;
use row_evaluation::Evaluation;
use row_evaluation::above::differs_below;
use row_evaluation::below::differs_above;
use row_evaluation::formed::all_rows;

// Whether the last of well-formed rows shows the difference asked for. The bytes of the rows stand behind the four squares, those by the
// first release and then those by the second; they are 0.
fn decide(releases: &Releases, rows: &[u32], work: &mut [u8], last: usize, asked: Asked) -> bool
    requires { ToDecide releases.now rows.now work.old last asked }
    ensures { Decided releases.now rows.now work.old work.new last asked result }
{
    releases.prepare(work);
    let layout = releases.forward_layout();
    let names = releases.names;
    let base = marks::work_length(names);
    let first = Evaluation {
        terminology: releases.first,
        square: layout.first_square(),
        base,
    };
    let second = Evaluation {
        terminology: releases.second,
        square: layout.second_square(),
        base: base + (last + 1) * (names + 1),
    };
    match asked.side {
        Side::Left => differs_above(&first, &second, work, rows, last, asked.name),
        Side::Right => differs_below(&first, &second, work, rows, last, asked.name),
    }
}

// Whether a side of a chosen name is asked for, there is a row, all are well formed, and the last shows the difference. The memory that this
// needs is 0.
fn rows_show(
    releases: &Releases,
    signature: &[u8],
    name: ConceptName,
    side: usize,
    rows: &[u32],
    work: &mut [u8],
) -> bool
    requires { ToCheckCleared signature.now releases.now rows.now work.old }
    ensures { CheckAnswered signature.now releases.now side name.0 rows.now work.old work.new result }
{
    let lent = releases.lend(signature);
    let Some(asked) = Asked::of(&lent, name, side) else {
        return false;
    };
    let count = row_count(rows);
    let Some(last) = count.checked_sub(1) else {
        return false;
    };
    if !all_rows(&lent, rows, count) {
        return false;
    }
    decide(releases, rows, work, last, asked)
}

// Checks rows in memory of any content. It is cleared before, since the bytes of rows have to be 0, and after, since it is handed back so with
// every answer.
fn check_rows(
    releases: &Releases,
    signature: &[u8],
    name: ConceptName,
    side: usize,
    rows: &[u32],
    work: &mut [u8],
) -> bool
    requires { ToCheck signature.now releases.now rows.now work.old }
    ensures { RowsChecked signature.now releases.now side name.0 rows.now work.old work.new result }
{
    let count = row_count(rows);
    let need = marks::work_length(releases.names) + 2 * (releases.names + 1) * count;
    marks::clear(work, need);
    let yes = rows_show(releases, signature, name, side, rows, work);
    marks::clear(work, need);
    yes
}

// Whether the last of the rows is a concept over the signature that lies above the name by the first release and not by the second (side 1),
// or below it so (side 2), all rows being well formed; or the refusal, which changes nothing.
pub fn check_concept(
    first: &[u8],
    second: &[u8],
    signature: &[u8],
    name: ConceptName,
    side: usize,
    rows: &[u32],
    work: &mut [u8],
) -> Result<bool, CompareRefusal>
    ensures { CheckedAs first.now second.now signature.now side name.0 rows.now work.old work.new result }
{
    // Local arrays, since there is no heap.
    let mut first_table = Table::BLANK;
    let mut second_table = Table::BLANK;
    let (counts, releases) = read_releases(first, second, &mut first_table, &mut second_table)?;
    judge_check(counts, signature, row_count(rows), work.len())?;
    Ok(check_rows(&releases, signature, name, side, rows, work))
}
