// A concept for a reported name, written as rows.
ghost use Rattle.std.specs.Prelude.{◌≡◌};
ghost use Rattle.el.specs.Comparison.{on_left, on_right};
ghost use Rattle.witness.specs.Showing.{ShownAs};
ghost use Rattle.witness.specs.Writing.{ToAsk, ReportFound, ToWriteSide, SideWritten, ToShow, WrittenIfReported, RowsShown};

use crate::asked::{Asked, Side};
use crate::judging::judge_show;
use crate::lent::row_count;
use crate::refusals::ShowRefusal;
use comparison::Releases;
use layout::edges::Position;
use meanings::read_releases;
use release::roles::RoleSet;
use release::table::Table;
use release::{ConceptName, Release};
use witness_above::write_left;
use witness_below::{NOTES, write_right};

// The writers are lent a number for each name and for ⊤.
const NODES: usize = Release::NAMES + 1;

// Whether a result byte tells of a left witness.
fn on_left(byte: u8) -> bool
    ensures { result ≡ on_left byte }
{
    matches!(byte, 1 | 3)
}

// Whether a result byte tells of a right witness.
fn on_right(byte: u8) -> bool
    ensures { result ≡ on_right byte }
{
    matches!(byte, 2 | 3)
}

// Whether the name is reported on the side, as a comparison reports it in prepared memory, which is left as it was. Never inlined, nor is the
// next function: their arrays need not stand on the stack together.
#[inline(never)]
fn is_reported_on(releases: &Releases, signature: &[u8], work: &mut [u8], asked: Asked) -> bool
    requires { ToAsk signature.now releases.now work.old asked }
    ensures { ReportFound signature.now releases.now work.old work.new asked result }
{
    // Local arrays, since there is no heap; so are those below.
    let mut result = [0u8; Release::NAMES];
    let mut edges = [RoleSet::NONE; Release::NAMES];
    releases.compare_prepared(signature, &mut result, &mut edges, work);
    match asked.side {
        Side::Left => on_left(result[asked.name.0]),
        Side::Right => on_right(result[asked.name.0]),
    }
}

// Writes the rows of a name that is reported on the side, in prepared memory: how many. The writers are lent a number for each node: left, the
// last row of the node's concept; right, the row that a name has. The notes are, left, the numbers as they were when they were last looked at;
// right, the pairs that wait.
#[inline(never)]
fn write_side(
    releases: &Releases,
    signature: &[u8],
    rows: &mut [u32],
    work: &mut [u8],
    asked: Asked,
) -> usize
    requires { ToWriteSide signature.now releases.now rows.old work.old asked }
    ensures { SideWritten signature.now releases.now rows.old rows.new work.old work.new asked result }
{
    let mut edges = [RoleSet::NONE; Release::NAMES];
    let mut numbers = [0u32; NODES];
    let mut notes = [0u32; NOTES];
    match asked.side {
        Side::Left => {
            let above = releases.given(signature, Position::Above, &mut edges);
            write_left(&above, work, rows, &mut numbers, &mut notes, asked.name)
        }
        Side::Right => {
            let below = releases.given(signature, Position::Below, &mut edges);
            write_right(&below, work, rows, &mut numbers, &mut notes, asked.name)
        }
    }
}

// Writes the rows of the name if it is reported on that side: how many. The memory may be of any content.
fn write_if_reported(
    releases: &Releases,
    signature: &[u8],
    name: ConceptName,
    side: usize,
    rows: &mut [u32],
    work: &mut [u8],
) -> usize
    requires { ToShow signature.now releases.now rows.old work.old }
    ensures { WrittenIfReported signature.now releases.now side name.0 rows.old rows.new work.old work.new result }
{
    let lent = releases.lend(signature);
    let Some(asked) = Asked::of(&lent, name, side) else {
        return 0;
    };
    releases.prepare(work);
    if !is_reported_on(releases, signature, work, asked) {
        return 0;
    }
    write_side(releases, signature, rows, work, asked)
}

// Writes them, and clears the memory behind: it is handed back so with every answer.
fn show_rows(
    releases: &Releases,
    signature: &[u8],
    name: ConceptName,
    side: usize,
    rows: &mut [u32],
    work: &mut [u8],
) -> usize
    requires { ToShow signature.now releases.now rows.old work.old }
    ensures { RowsShown signature.now releases.now side name.0 rows.old rows.new work.old work.new result }
{
    let written = write_if_reported(releases, signature, name, side, rows, work);
    marks::clear(work, marks::work_length(releases.names));
    written
}

// Writes a concept for the name if it is reported on that side: how many rows, the last of which is the concept; or the refusal, which
// changes nothing. Side 1 is the left, side 2 the right.
pub fn show_concept(
    first: &[u8],
    second: &[u8],
    signature: &[u8],
    name: ConceptName,
    side: usize,
    rows: &mut [u32],
    work: &mut [u8],
) -> Result<usize, ShowRefusal>
    ensures { ShownAs first.now second.now signature.now side name.0 rows.old rows.new work.old work.new result }
{
    // Local arrays, since there is no heap.
    let mut first_table = Table::BLANK;
    let mut second_table = Table::BLANK;
    let (counts, releases) = read_releases(first, second, &mut first_table, &mut second_table)?;
    judge_show(counts, signature, row_count(rows), work.len())?;
    Ok(show_rows(&releases, signature, name, side, rows, work))
}
