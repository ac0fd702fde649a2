// Rows written for a right report.
#![tactic(auto)]

ghost use Rattle.witness_below.specs.Finding.{NotesRoom};
ghost use Rattle.witness_below.specs.Arranging.{ToWriteRight, RightWritten};
ghost use Rattle.witness_below.specs.Whole.{ToWriteArranged, ArrangedWritten};

use crate::arranging::arrange;
use crate::cells::{OPEN, ROW, cell, put_cell};
use crate::passes::close;
use layout::{Given, Layout};
use release::ConceptName;
use row_evaluation::rows::{Form, put_row};

mod arranging;
mod cells;
mod finding;
mod looking;
mod passes;
mod tracing;

pub use tracing::NOTES;

// Writes the rows for a name that is a right witness, in memory that is arranged for that: the last row shows it. How many rows there are.
// The numbers and notes need not be 0.
fn write_arranged(
    given: &Given,
    work: &mut [u8],
    rows: &mut [u32],
    numbers: &mut [u32],
    notes: &mut [u32],
    name: ConceptName,
) -> usize
    requires to_write { ToWriteArranged given.now name.0 rows.old numbers.old work.old }
    requires noting { NotesRoom notes.old }
    ensures { ArrangedWritten given.now name.0 rows.old rows.new work.old work.new result }
{
    put_cell(work, given.layout, name.0, name.0, OPEN);
    let written = close(given, work, rows, numbers, notes, name);
    let Some(row) = cell(work, given.layout, name.0, name.0).checked_sub(ROW) else {
        return written;
    };
    // the last row is the one that shows the name
    if row + 1 == written {
        return written;
    }
    put_row(rows, written, Form::Conjunction(row, row));
    written + 1
}

// Writes the rows for a name that is a right witness: the last shows it. How many rows there are. Memory is asked for as it is prepared for the
// two releases: the inclusions of the first at its start, those of the second behind the bytes lent for these. It is arranged for writing, and
// is not as it was. The numbers and notes need not be 0.
pub fn write_right(
    given: &Given,
    work: &mut [u8],
    rows: &mut [u32],
    numbers: &mut [u32],
    notes: &mut [u32],
    name: ConceptName,
) -> usize
    requires to_write { ToWriteRight given.now name.0 rows.old numbers.old work.old }
    requires noting { NotesRoom notes.old }
    ensures { RightWritten given.now name.0 rows.old rows.new work.old work.new result }
{
    let span = arrange(work, given.layout.names);
    let mut arranged = *given;
    arranged.layout = Layout {
        names: given.layout.names,
        roles: given.layout.roles,
        first: 0,
        second: span,
        marks: 2 * span,
    };
    write_arranged(&arranged, work, rows, numbers, notes, name)
}
