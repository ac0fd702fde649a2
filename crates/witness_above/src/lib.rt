// Rows written for a left report.
#![tactic(auto)]

ghost use Rattle.std.specs.Prelude.{IfSome, ◌≤◌, length};
ghost use Rattle.witness_above.specs.Whole.{ToFind, NameDiffers, ToWrite, LeftWritten};

use crate::passes::close;
use crate::reach::reach;
use layout::Given;
use release::ConceptName;
use row_evaluation::rows::{Form, put_row};

mod joining;
mod pairs;
mod passes;
mod reach;
mod rows;
mod turns;

// A chosen name that lies above the name by the first release and not by the second.
fn differing_name(given: &Given, work: &[u8], name: usize) -> Option<ConceptName>
    requires { ToFind given.now work.now name }
    ensures { IfSome result (λ other. NameDiffers given.now work.now name other.0) }
{
    let first = given.layout.first_square();
    let second = given.layout.second_square();
    for other in 0..given.layout.names {
        if given.has_name(other)
            && first.is_marked(work, name, other)
            && !second.is_marked(work, name, other)
        {
            return Some(ConceptName(other));
        }
    }
    None
}

// Writes the rows for a name that is a left witness: the last shows it. How many rows there are. The numbers are 0 at first, since the concept
// of each node is ⊤ then; the notes are only hints where to look, so they may hold anything.
pub fn write_left(
    given: &Given,
    work: &mut [u8],
    rows: &mut [u32],
    numbers: &mut [u32],
    notes: &mut [u32],
    asked: ConceptName,
) -> usize
    requires write { ToWrite given.now asked.0 rows.old numbers.old work.old }
    requires notes { given.now.layout.names ≤ length notes.old }
    ensures { LeftWritten given.now asked.0 rows.old rows.new work.old work.new result }
{
    if let Some(other) = differing_name(given, work, asked.0) {
        put_row(rows, 0, Form::Name(other));
        return 1;
    }
    reach(given, work, asked.0);
    close(given, work, rows, numbers, notes, asked)
}
