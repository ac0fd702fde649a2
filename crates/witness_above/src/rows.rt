// ∃ over the concept of a number, written.
ghost use Rattle.std.specs.Prelude.{IfSome, ◌+◌, ◌*◌, ◌≤◌, length};
ghost use Rattle.witness_above.specs.Left.{TopFound, ToRestrict, Restricted};

use release::RoleIndex;
use row_evaluation::rows::{Form, put_row, read_row};

// The first row of ⊤.
fn top_row(rows: &[u32], count: usize) -> Option<usize>
    requires { 3 * count ≤ length rows.now }
    ensures { IfSome result (TopFound count rows.now) }
{
    for i in 0..count {
        if let Some(Form::Top) = read_row(rows, i) {
            return Some(i);
        }
    }
    None
}

// Writes ∃ over the concept of a number: over its row, or over ⊤, which is written before it where no row has it. The row.
pub fn put_restriction(rows: &mut [u32], role: RoleIndex, number: usize, count: usize) -> usize
    requires { ToRestrict number count rows.old }
    ensures { Restricted role.0 number count rows.old rows.new result }
{
    if number != 0 {
        put_row(rows, count, Form::Restriction(role, number - 1));
        return count;
    }
    if let Some(top) = top_row(rows, count) {
        put_row(rows, count, Form::Restriction(role, top));
        return count;
    }
    put_row(rows, count, Form::Top);
    put_row(rows, count + 1, Form::Restriction(role, count));
    count + 1
}
