// One row joined to the concepts of the nodes below a name, where that loses something: a pair of such a node with one that does not lie below
// the row by the second release (turns). The line has those that do.
ghost use Rattle.std.specs.Prelude.{◌≡◌, ◌≤◌};
ghost use Rattle.el.proofs.Tests.{Tells};
ghost use Rattle.witness_above.specs.Joining.{Loses, ToFindLosing, FirstLosing, ToJoin, Joined};
ghost use Rattle.witness_above.specs.Left.{ToJoinOthers, OthersJoined, ToJoinAll, JoinedAll};

use crate::pairs::{exceeds, holds, meet};
use layout::Layout;
use release::ConceptName;
use row_evaluation::rows::{Form, narrow, put_row, wide};

// Whether joining the line's row to the concept of x loses something.
fn loses(layout: Layout, work: &[u8], name: usize, x: usize) -> bool
    requires asks { ToFindLosing layout name work.now }
    requires x_le_names { x ≤ layout.names }
    ensures { Tells result (Loses work.now layout name x) }
{
    layout.first_square().is_marked(work, x, name) && exceeds(layout, work, x)
}

// The node asked for if it loses something, else the first that does.
pub fn first_losing(layout: Layout, work: &[u8], asked: usize, name: usize) -> Option<usize>
    requires asks { ToFindLosing layout name work.now }
    requires asked_le_names { asked ≤ layout.names }
    ensures { FirstLosing work.now layout name result }
{
    if loses(layout, work, name, asked) {
        return Some(asked);
    }
    for x in 0..=layout.names {
        if loses(layout, work, name, x) {
            return Some(x);
        }
    }
    None
}

// Joins a row, whose line there is, to the concept of x: how many rows are written then.
fn join(
    layout: Layout,
    work: &mut [u8],
    rows: &mut [u32],
    numbers: &mut [u32],
    x: usize,
    row: usize,
    count: usize,
) -> usize
    requires { ToJoin layout.marks layout.names x row count rows.old numbers.old work.old }
    ensures { Joined layout.marks layout.names x row count rows.old rows.new numbers.old numbers.new work.old work.new result }
{
    meet(layout, work, x);
    let old = wide(numbers[x]);
    if old == 0 {
        numbers[x] = narrow(row + 1);
        return count;
    }
    put_row(rows, count, Form::Conjunction(old - 1, row));
    numbers[x] = narrow(count + 1);
    count + 1
}

// Joins a row to the concepts of all nodes that lose something by it, but for the one asked for.
fn join_others(
    layout: Layout,
    work: &mut [u8],
    rows: &mut [u32],
    numbers: &mut [u32],
    asked: ConceptName,
    name: ConceptName,
    row: usize,
    count: usize,
) -> usize
    requires { ToJoinOthers layout asked.0 name.0 row count rows.old numbers.old work.old }
    ensures { OthersJoined layout asked.0 name.0 row count rows.old rows.new numbers.old numbers.new work.old work.new result }
{
    let mut written = count;
    for x in 0..=layout.names {
        if x != asked.0 && loses(layout, work, name.0, x) {
            written = join(layout, work, rows, numbers, x, row, written);
        }
    }
    written
}

// Joins the last row to the concepts of all nodes that lose something by it. x is one of them: the node asked for, if that is one. But a row
// by which the pair asked for is lost shows the difference by itself, and stays the last.
pub fn join_all(
    layout: Layout,
    work: &mut [u8],
    rows: &mut [u32],
    numbers: &mut [u32],
    asked: ConceptName,
    name: ConceptName,
    x: usize,
    row: usize,
) -> usize
    requires { ToJoinAll layout asked.0 name.0 x row rows.old numbers.old work.old }
    ensures { JoinedAll layout asked.0 name.0 row rows.old rows.new numbers.old numbers.new work.old work.new result }
{
    if x == asked.0 && !holds(layout, work, layout.names + 1, asked.0) {
        meet(layout, work, asked.0);
        return row + 1;
    }
    let written = join(layout, work, rows, numbers, x, row, row + 1);
    join_others(layout, work, rows, numbers, asked, name, row, written)
}
