// The byte of each pair of nodes, and behind them one row of bytes more, the line, which has the nodes below a row that is to be joined.
ghost use Rattle.std.specs.Prelude.{◌≡◌, suc, ◌+◌, ◌*◌, ◌≤◌, ◌<◌};
ghost use Rattle.el.proofs.Tests.{Tells};
ghost use Rattle.marks.specs.Squares.{Marked};
ghost use Rattle.layout.specs.Layouts.{second_square};
ghost use Rattle.row_evaluation.specs.Cells.{Holds, RowRoom, Adds};
ghost use Rattle.row_evaluation.specs.Below.{Reaches};
ghost use Rattle.witness_above.specs.Joining.{line, Taken, Met, Exceeds};
ghost use Rattle.witness_above.specs.Left.{LineCleared, Laid, second_rows};

use layout::{Given, Layout};
use release::RoleIndex;
use row_evaluation::Evaluation;
use row_evaluation::cells::Cells;

// Whether the byte of x and y is 1. Row names + 1 is the line.
pub fn holds(layout: Layout, work: &[u8], x: usize, y: usize) -> bool
    requires room { RowRoom layout.marks layout.names x work.now }
    requires y_le_names { y ≤ layout.names }
    ensures { Tells result (Holds work.now layout.marks layout.names x y) }
{
    let pairs = Cells {
        base: layout.marks,
        names: layout.names,
    };
    pairs.holds(work, x, y)
}

// Whether row x has a node that the line has not.
pub fn exceeds(layout: Layout, work: &[u8], x: usize) -> bool
    requires room { RowRoom layout.marks layout.names (line layout.names) work.now }
    requires x_le_names { x ≤ layout.names }
    ensures { Tells result (Exceeds work.now layout.marks layout.names x) }
{
    for y in 0..=layout.names {
        if holds(layout, work, x, y) && !holds(layout, work, layout.names + 1, y) {
            return true;
        }
    }
    false
}

// Takes node y from row x.
fn take(layout: Layout, work: &mut [u8], x: usize, y: usize)
    requires room { RowRoom layout.marks layout.names x work.old }
    requires y_le_names { y ≤ layout.names }
    ensures { Taken layout.marks layout.names x y work.old work.new }
{
    work[layout.marks + (x * (layout.names + 1) + y)] = 0;
}

// Takes the nodes from row x that the line has not.
pub fn meet(layout: Layout, work: &mut [u8], x: usize)
    requires room { RowRoom layout.marks layout.names (line layout.names) work.old }
    requires x_le_names { x ≤ layout.names }
    ensures { Met layout.marks layout.names x work.old work.new }
{
    for y in 0..=layout.names {
        if !holds(layout, work, layout.names + 1, y) {
            take(layout, work, x, y);
        }
    }
}

// Empties the line.
pub fn clear_line(layout: Layout, work: &mut [u8])
    requires { RowRoom layout.marks layout.names (line layout.names) work.old }
    ensures { LineCleared layout.marks layout.names work.old work.new }
{
    for y in 0..=layout.names {
        take(layout, work, layout.names + 1, y);
    }
}

// The second release, by which the line is filled, as it is a row behind those of the nodes.
fn second_rows<'a>(given: &Given<'a>) -> Evaluation<'a>
    ensures { result ≡ second_rows given.now }
{
    Evaluation {
        terminology: given.second,
        square: given.layout.second_square(),
        base: given.layout.marks,
    }
}

// Puts what lies below the name by the second release into the line.
pub fn line_name(given: &Given, work: &mut [u8], name: usize)
    requires laid { Laid given.now work.old }
    requires room { RowRoom given.now.layout.marks given.now.layout.names (line given.now.layout.names) work.old }
    requires name_le_names { name ≤ given.now.layout.names }
    ensures { Adds given.now.layout.marks given.now.layout.names (line given.now.layout.names)
        (λ x. Marked (second_square given.now.layout) work.old x name) work.old work.new }
{
    second_rows(given).put_below(work, given.layout.names + 1, name);
}

// Puts what lies below ∃ of the role over row node by the second release into the line.
pub fn line_edge(given: &Given, work: &mut [u8], role: RoleIndex, node: usize)
    requires laid { Laid given.now work.old }
    requires room { RowRoom given.now.layout.marks given.now.layout.names (line given.now.layout.names) work.old }
    requires node_le_names { node ≤ given.now.layout.names }
    ensures { Adds given.now.layout.marks given.now.layout.names (line given.now.layout.names) (Reaches (second_rows given.now) work.old node role.0) work.old
        work.new }
{
    second_rows(given).put_some(work, given.layout.names + 1, role, node);
}
