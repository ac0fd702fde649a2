// What new marks of a row give: in the rows below it, and in those of the edges that end there. Where to look is read from hints, those
// that classification left behind the inclusions of the two releases; each edge is tested at its pair, or for all nodes at once.
// What is given, the memory and the rows that wait are three parameters: a struct of the three was tried in crate backward (consequences).
ghost use Rattle.std.specs.Prelude.{◌≤◌, ◌<◌};
ghost use Rattle.std.specs.Option.{IfSome};
ghost use Rattle.marks.specs.Passes.{Grows, Pass, Anything};
ghost use Rattle.marks.specs.Squares.{Room, Area};
ghost use Rattle.marks.specs.Lines.{Spans};
ghost use Rattle.layout.specs.Layouts.{first_square, second_square, mark_square};
ghost use Rattle.forward.specs.Rules.{Beneath, Setting, Edge, FromAbove, Follows, Followed, RowLost};

use crate::kept::{join_below, keep_partners, next_role};
use crate::partner::look_at_pair;
use classification::hints::{BELOW, FILLERS};
use layout::Given;
use marks::columns;
use marks::line::Line;
use marks::waiting::Waiting;
use release::RoleIndex;
use release::roles::RoleSet;

// What is few. Where more bytes of a row have something new, the nodes that can lose a partner by it are not looked for; where more
// such nodes are left, they are not tested one by one. To test all nodes at once is then quicker.
const FEW_BYTES: usize = 2;

const FEW_NODES: usize = 4;

// Marks the pairs of x that its edge with the role loses, for all nodes at once. Whether marks can be new: where not, none is, and none was
// left to put.
// It stays a function of its own, so that its loop has registers enough.
#[inline(never)]
fn lose_row(given: &Given, work: &mut [u8], x: usize, role: RoleIndex) -> bool
    requires setting { Setting given.now work.old }
    requires edge { Edge given.now x role.0 }
    ensures { RowLost given.now x role.0 work.old work.new result }
{
    let mut kept = [0u8; Line::LENGTH];
    if keep_partners(given, work, &mut kept, x, role) {
        return false;
    }
    let marks = given.layout.mark_square();
    marks.mark_missing(work, x, &kept);
    true
}

// The same for each role of the edge of x by which something can be left to mark: what a role without a partner loses is lost once. Whether
// marks can be new.
pub fn lose_rows(given: &Given, work: &mut [u8], x: usize) -> bool
    requires setting { Setting given.now work.old }
    requires x_lt_names { x < given.now.layout.names }
    ensures { Followed given.now work.old work.new }
{
    let mut changed = false;
    let mut next = 0;
    // the loop writes the memory that it searches, so no iterator can hold it
    while let Some(role) = next_role(given, work, x, next) {
        next = role.0 + 1;
        changed |= lose_row(given, work, x, role);
    }
    changed
}

// Adds to the line what lies below the restrictions of the second release with one of these roles, and this filler.
fn touch_by(given: &Given, work: &[u8], touched: &mut [u8], serving: RoleSet, filler: usize)
    requires area { Area (second_square given.now.layout) work.now × Beneath given.now.layout work.now }
    requires spans { Spans given.now.layout.names touched.old }
    requires filler_le_names { filler ≤ given.now.layout.names }
{
    // in variables of its own, so that a turn reads them from registers
    let second = given.second;
    let inclusions = given.layout.second_square();
    for name in inclusions.hinted(work, FILLERS, filler) {
        if name < inclusions.names && serving.has(second.role(name)) {
            join_below(given, work, touched, name);
        }
    }
}

// Adds what lies below the restrictions with a role that serves for this one, for each filler among the new columns. A node that is not in the
// line has no partner with such a filler, so the new marks take none from it.
fn touch(given: &Given, work: &[u8], new: &[u8], touched: &mut [u8], role: RoleIndex)
    requires area { Area (second_square given.now.layout) work.now × Beneath given.now.layout work.now }
    requires spans { Spans given.now.layout.names new.now × Spans given.now.layout.names touched.old }
{
    let serving = given.second.under(role);
    for filler in columns::of(new, given.layout.names) {
        touch_by(given, work, touched, serving, filler);
    }
}

// Notes the nodes of the line that x is not marked with. How many they are; where more than a few, the rest is not looked for, and it is
// not told. They are an array with a number beside it, since there is no heap.
fn find_left(
    given: &Given,
    work: &[u8],
    touched: &[u8],
    left: &mut [usize; FEW_NODES],
    x: usize,
) -> Option<usize>
    requires room { Room (mark_square given.now.layout) work.now }
    requires spans { Spans given.now.layout.names touched.now }
    requires x_le_names { x ≤ given.now.layout.names }
    ensures { IfSome result (λ count. count ≤ FEW_NODES) }
{
    let marks = given.layout.mark_square();
    let mut count = 0;
    for y in columns::of(touched, given.layout.names) {
        if marks.is_marked(work, x, y) {
            continue;
        }
        if FEW_NODES <= count {
            return None;
        }
        left[count] = y;
        count += 1;
    }
    Some(count)
}

// The edge of x with the role, for each of the nodes noted. Whether a mark is new.
fn lose_each(given: &Given, work: &mut [u8], left: &[usize], x: usize, role: RoleIndex) -> bool
    requires setting { Setting given.now work.old }
    requires edge { Edge given.now x role.0 }
    ensures { Pass (Follows given.now) (mark_square given.now.layout) Anything work.old work.new result }
{
    let mut changed = false;
    for &y in left {
        if given.layout.names < y {
            continue;
        }
        changed |= look_at_pair(given, work, x, role, y);
    }
    changed
}

// The edge of x with the role, which only nodes of the line can lose: where a few are left that x is not marked with, for each of these; where
// more are left, for all nodes at once. Whether marks can be new.
fn lose_touched(given: &Given, work: &mut [u8], touched: &[u8], x: usize, role: RoleIndex) -> bool
    requires setting { Setting given.now work.old }
    requires spans { Spans given.now.layout.names touched.now }
    requires edge { Edge given.now x role.0 }
    ensures { Followed given.now work.old work.new }
{
    let mut left = [0; FEW_NODES];
    match find_left(given, work, touched, &mut left, x) {
        Some(count) => lose_each(given, work, &left[..count], x, role),
        None => lose_row(given, work, x, role),
    }
}

// The edge of x with the role, whose end has new marks in the columns of a line: for the nodes that can lose it by these. Whether marks can be
// new.
fn lose_role(given: &Given, work: &mut [u8], new: &[u8], x: usize, role: RoleIndex) -> bool
    requires setting { Setting given.now work.old }
    requires spans { Spans given.now.layout.names new.now }
    requires edge { Edge given.now x role.0 }
    ensures { Followed given.now work.old work.new }
{
    let mut touched = [0u8; Line::LENGTH];
    touch(given, work, new, &mut touched, role);
    lose_touched(given, work, &touched, x, role)
}

// The edge of x, whose end has new marks in the columns of a line, in so many bytes: where these are more than a few, for all nodes at once. Else
// for each of its roles; to ask before each whether the row is full costs more than to look for the few nodes that can lose it.
fn lose_edge(given: &Given, work: &mut [u8], new: &[u8], fresh: usize, x: usize) -> bool
    requires setting { Setting given.now work.old }
    requires spans { Spans given.now.layout.names new.now }
    requires x_lt_names { x < given.now.layout.names }
    ensures { Followed given.now work.old work.new }
{
    if FEW_BYTES < fresh {
        return lose_rows(given, work, x);
    }
    let roles = given.edges[x];
    let mut changed = false;
    let mut next = 0;
    while let Some(role) = roles.next(next) {
        next = role.0 + 1;
        changed |= lose_role(given, work, new, x, role);
    }
    changed
}

// The edges that end at the node, which has new marks in the columns of a line.
fn lose_edges(
    given: &Given,
    work: &mut [u8],
    waiting: &mut Waiting,
    new: &[u8],
    fresh: usize,
    end: usize,
)
    requires setting { Setting given.now work.old }
    requires spans { Spans given.now.layout.names new.now }
    requires end_le_names { end ≤ given.now.layout.names }
    ensures { Followed given.now work.old work.new }
{
    let inclusions = given.layout.first_square();
    let mut next = 0;
    // the loop writes the memory that it searches, so no iterator can hold it
    while let Some(x) = inclusions.next_hint(work, FILLERS, end, next) {
        next = x + 1;
        if inclusions.names <= x {
            continue;
        }
        if lose_edge(given, work, new, fresh, x) {
            waiting.wait(x);
        }
    }
}

// Hands the marks of row x on to each row below it. Crate classification does so too, but there inclusions and marks are one square: one
// function for both would be handed two squares, a rule and what of the memory stays, for a loop of five lines.
fn hand_down(given: &Given, work: &mut [u8], waiting: &mut Waiting, x: usize)
    requires area { Area (first_square given.now.layout) work.old × Room (mark_square given.now.layout) work.old }
    requires x_le_names { x ≤ given.now.layout.names }
    ensures { Grows (FromAbove given.now.layout) (mark_square given.now.layout) work.old work.new }
{
    let marks = given.layout.mark_square();
    let inclusions = given.layout.first_square();
    let mut next = 0;
    // the loop writes the memory that it searches, so no iterator can hold it
    while let Some(lower) = inclusions.next_hint(work, BELOW, x, next) {
        next = lower + 1;
        if marks.seems_within(work, x, lower) {
            continue;
        }
        if inclusions.is_marked(work, lower, x) {
            marks.hand_on(work, x, lower);
            waiting.wait(lower);
        }
    }
}

// All that the new marks of row x give.
pub fn deal(given: &Given, work: &mut [u8], waiting: &mut Waiting, x: usize)
    requires setting { Setting given.now work.old }
    requires x_le_names { x ≤ given.now.layout.names }
    ensures { Followed given.now work.old work.new }
{
    let marks = given.layout.mark_square();
    let mut new = [0u8; Line::LENGTH];
    let fresh = marks.see(work, x, &mut new);
    hand_down(given, work, waiting, x);
    lose_edges(given, work, waiting, &new, fresh, x);
}
