// A sheet whose rows are a value: for a caller that has no rows of its own to lend.
ghost use Rattle.std.specs.Prelude.{◌≤◌};
ghost use Rattle.branches.specs.Sheets.{most_branches, Says};
ghost use Rattle.branches.specs.Filling.{FilledPart};

use crate::judging::Sheet;
use crate::row::Row;
use crate::{SheetRefusal, compare_branches};
use meanings::Compared;

// What a sheet answers, and its rows.
#[derive(Clone, Copy, Debug, PartialEq, Eq)]
pub struct Filled {
    pub answer: Result<Compared, SheetRefusal>,
    pub rows: [Row; Sheet::BRANCHES],
}

// Lends the first rows of those given, `lent` in number, and returns all.
pub fn fill_part(
    first: &[u8],
    second: &[u8],
    signatures: &[u8],
    count: usize,
    rule: usize,
    work: &mut [u8],
    mut rows: [Row; Sheet::BRANCHES],
    lent: usize,
) -> Filled
    requires { lent ≤ most_branches }
    ensures { FilledPart first.now second.now signatures.now count rule lent rows result.rows work.old work.new result.answer }
{
    let part = &mut rows[..lent];
    let answer = compare_branches(first, second, signatures, count, rule, work, part);
    Filled { answer, rows }
}

// Fills all the rows given. A call of its own, since it asks nothing of its caller: `fill_part` asks that `lent` is in the array.
pub fn fill_rows(
    first: &[u8],
    second: &[u8],
    signatures: &[u8],
    count: usize,
    rule: usize,
    work: &mut [u8],
    rows: [Row; Sheet::BRANCHES],
) -> Filled
    ensures { Says first.now second.now signatures.now count rule rows result.rows work.old work.new result.answer }
{
    fill_part(
        first,
        second,
        signatures,
        count,
        rule,
        work,
        rows,
        Sheet::BRANCHES,
    )
}
