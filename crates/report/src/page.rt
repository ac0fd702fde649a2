// The page for the desk wall: the names that a result reports, four to a line.
ghost use Rattle.std.specs.Prelude.{◌≡◌, true, length};
ghost use Rattle.output.specs.Places.{Put};
ghost use Rattle.output.specs.Written.{WrittenAs};
ghost use Rattle.report.specs.Pages.{cell_text, page};
ghost use Rattle.report.specs.PageCells.{line_end, after_cell, after_last};
ghost use Rattle.report.specs.PagesWritten.{is_result, length_answer, page_answer};
ghost use Rattle.report.specs.Sides.{side_letter};

use crate::PageRefusal;
use crate::lines::Side;
use output::{put_aligned, put_byte, put_spaces};
use release::{ConceptName, Release};

// The characters of a cell, the cells of a line, and the lines after which the page breaks.
const CELL: usize = 16;

const CELLS: usize = 4;

const LINES: usize = 50;

// Byte 12 is the form feed.
const PAGE_BREAK: u8 = 12;

// The cell of a name.
fn put_cell(output: &mut [u8], at: usize, name: ConceptName, side: Side) -> usize
    ensures { Put output.old at (cell_text (record { name = name.0; sign = side_letter side })) output.new result }
{
    let number = put_aligned(output, at, 4, name.0);
    let space = put_byte(output, number, b' ');
    let letter = put_byte(output, space, side.letter());
    put_spaces(output, letter, 10)
}

// The end of a line, and the page's break after each 50th; lines are counted from 1.
fn put_line_end(output: &mut [u8], at: usize, line: usize) -> usize
    ensures { Put output.old at (line_end line) output.new result }
{
    let next = put_byte(output, at, b'\n');
    if line % LINES == 0 {
        return put_byte(output, next, PAGE_BREAK);
    }
    next
}

// What follows a cell, of which so many stand then: the end of the line, after its last one.
fn put_after_cell(output: &mut [u8], at: usize, cells: usize) -> usize
    ensures { Put output.old at (after_cell cells) output.new result }
{
    if cells % CELLS == 0 {
        return put_line_end(output, at, cells / CELLS);
    }
    at
}

// The rest of an unfinished line after the last of so many cells.
fn put_rest(output: &mut [u8], at: usize, cells: usize) -> usize
    ensures { Put output.old at (after_last cells) output.new result }
{
    let over = cells % CELLS;
    if over == 0 {
        return at;
    }
    let next = put_spaces(output, at, CELL * (CELLS - over));
    put_line_end(output, next, cells / CELLS + 1)
}

fn put_page(output: &mut [u8], result_bytes: &[u8]) -> usize
    ensures { Put output.old 0 (page result_bytes.now) output.new result }
{
    let mut next = 0;
    let mut cells = 0;
    for (name, byte) in result_bytes.iter().enumerate() {
        let Some(side) = Side::of(*byte) else {
            continue;
        };
        cells += 1;
        next = put_cell(output, next, ConceptName(name), side);
        next = put_after_cell(output, next, cells);
    }
    put_rest(output, next, cells)
}

// Whether bytes can be the result of a comparison.
fn is_result(result_bytes: &[u8]) -> bool
    ensures { result ≡ is_result result_bytes.now }
{
    result_bytes.len() <= Release::NAMES && result_bytes.iter().all(|byte| *byte <= 3)
}

// How long the page of a result is: lines of 64 characters and a newline, and a byte after each 50th.
pub fn page_length(result_bytes: &[u8]) -> Result<usize, PageRefusal>
    ensures { result ≡ length_answer result_bytes.now }
{
    if !is_result(result_bytes) {
        return Err(PageRefusal::NoResult);
    }
    let reported = result_bytes
        .iter()
        .filter(|byte| Side::of(**byte).is_some())
        .count();
    let lines = reported.div_ceil(CELLS);
    Ok((CELL * CELLS + 1) * lines + lines / LINES)
}

// Writes the page of a result to the start of the output, and answers its length. The result is the whole slice lent: a caller who lends
// more bytes than there are names to a comparison cuts them off first.
pub fn write_page(result_bytes: &[u8], output: &mut [u8]) -> Result<usize, PageRefusal>
    ensures { WrittenAs (page_answer result_bytes.now output.old) (page result_bytes.now) output.old output.new result }
{
    let length = page_length(result_bytes)?;
    if output.len() < length {
        return Err(PageRefusal::ShortOutput);
    }
    put_page(output, result_bytes);
    Ok(length)
}
