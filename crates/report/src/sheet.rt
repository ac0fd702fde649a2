// The text of a sheet: a line for each branch, with the numbers of its row.
ghost use Rattle.release.specs.Refusals.{told};
ghost use Rattle.report.specs.Sheets.{row_line, row_lines, SheetWritten};
ghost use Rattle.output.specs.Places.{Put};

use crate::numbers::put_worded;
use crate::{ReportRefusal, write_refusal};
use branches::judging::Sheet;
use branches::row::Row;
use meanings::Compared;
use output::{put_byte, write_whole};
use release::Refusal;

// The line of a branch. A number of 32 bits is one of a machine's by `as`: there is no From for it.
fn put_row(output: &mut [u8], at: usize, branch: usize, row: Row) -> usize
    ensures { Put output.old at (row_line branch row) output.new result }
{
    let first = put_worded(output, at, b"branch ", branch);
    let second = put_worded(output, first, b" chosen ", row.chosen as usize);
    let third = put_worded(output, second, b" left ", row.left as usize);
    let fourth = put_worded(output, third, b" right ", row.right as usize);
    let fifth = put_worded(output, fourth, b" share ", row.share as usize);
    put_byte(output, fifth, b'\n')
}

fn put_rows(output: &mut [u8], rows: &[Row]) -> usize
    ensures { Put output.old 0 (row_lines 0 rows.now) output.new result }
{
    let mut next = 0;
    for (branch, row) in rows.iter().enumerate() {
        next = put_row(output, next, branch, *row);
    }
    next
}

// Writes the text of a sheet that was asked for `count` branches, by its answer and its rows. The number stands beside the rows, since a
// refused sheet may have been asked for more than there are rows.
pub fn write_sheet<R: Refusal>(
    answer: Result<Compared, R>,
    rows: &[Row; Sheet::BRANCHES],
    count: usize,
    output: &mut [u8],
) -> Result<usize, ReportRefusal>
    ensures { SheetWritten (told R.numbers answer) count rows.now output.old output.new result }
{
    if let Err(refusal) = answer {
        return write_refusal(refusal, output);
    }
    let told = &rows[..count.min(Sheet::BRANCHES)];
    write_whole(
        output,
        |output| put_rows(output, told),
        ReportRefusal::ShortOutput,
    )
}
