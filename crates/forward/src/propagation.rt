// The first marks, row after row. That this misses nothing is not proved and need not be: the passes after it (sweep) find what it missed.
// They find nothing, as a rule.
ghost use Rattle.std.specs.Prelude.{◌≡◌, ◌≤◌, ◌<◌};
ghost use Rattle.marks.specs.Squares.{Room};
ghost use Rattle.marks.specs.Lines.{Spans};
ghost use Rattle.marks.specs.Passes.{Grows};
ghost use Rattle.marks.specs.declared.inclusions.Direction.TheVariants.{Down};
ghost use Rattle.layout.specs.Layouts.{first_square, mark_square};
ghost use Rattle.forward.specs.Rules.{Setting, Named, NameLost, Followed, Step};

use crate::consequences::lose_rows;
use crate::sweep::look_at_name;
use layout::Given;
use marks::inclusions::{Direction, Handing};
use marks::line;
use marks::line::Line;
use marks::order::Order;
use marks::waiting::Waiting;

// Writes an order in which ends come before their edges, and what lies above before what lies below, as far as that can be had: a hint.
#[inline(never)]
pub fn sort(given: &Given, work: &[u8], order: &mut Order)
    requires { Room (first_square given.now.layout) work.now }
{
    // in variables of its own, so that a turn reads them from registers
    let first = given.first;
    let inclusions = given.layout.first_square();
    order.sort(work, inclusions, |x| {
        if x < inclusions.names && first.is_restriction(x) {
            Some(first.filler(x))
        } else {
            None
        }
    });
}

// Marks each name of the signature with all that it is not above by the second release.
fn mark_names(given: &Given, work: &mut [u8])
    requires { Named given.now work.old }
    ensures { Grows (NameLost given.now) (mark_square given.now.layout) work.old work.new }
{
    for x in 0..given.layout.names {
        look_at_name(given, work, x);
    }
}

// Lets the rows above row x wait that are not done.
fn wait_for_above(given: &Given, work: &[u8], waiting: &mut Waiting, done: &[u8], x: usize)
    requires room { Room (first_square given.now.layout) work.now }
    requires spans { Spans given.now.layout.names done.now }
    requires x_le_names { x ≤ given.now.layout.names }
{
    let inclusions = given.layout.first_square();
    for later in inclusions.outside(work, x, done) {
        if later != x {
            waiting.wait(later);
        }
    }
}

// The edge of x. If its end is not done, it waits.
fn first_edge(given: &Given, work: &mut [u8], waiting: &mut Waiting, done: &[u8], x: usize)
    requires setting { Setting given.now work.old }
    requires spans { Spans given.now.layout.names done.now }
    requires x_lt_names { x < given.now.layout.names }
    ensures { Followed given.now work.old work.new }
{
    if given.edges[x].is_empty() {
        return;
    }
    let end = given.first.filler(x);
    lose_rows(given, work, x);
    if line::has(done, end) {
        return;
    }
    waiting.wait(end);
}

// Each row takes the marks of what lies above it by the first release.
pub fn taking(given: &Given) -> Handing
    ensures direction { result.direction ≡ Down }
    ensures squares { (result.inclusions ≡ first_square given.now.layout) × (result.marks ≡ mark_square given.now.layout) }
{
    Handing {
        inclusions: given.layout.first_square(),
        marks: given.layout.mark_square(),
        direction: Direction::Down,
    }
}

// Row x: the marks of what lies above it, and its edge.
fn first_row(
    given: &Given,
    work: &mut [u8],
    waiting: &mut Waiting,
    done: &[u8],
    x: usize,
    near: Option<usize>,
)
    requires setting { Setting given.now work.old }
    requires spans { Spans given.now.layout.names done.now }
    requires x_le_names { x ≤ given.now.layout.names }
    ensures { Followed given.now work.old work.new }
{
    taking(given).hand(work, done, x, near);
    wait_for_above(given, work, waiting, done, x);
    if x < given.layout.names {
        first_edge(given, work, waiting, done, x);
    }
}

// All rows, one after the other.
fn first_rows(given: &Given, work: &mut [u8], waiting: &mut Waiting, done: &mut [u8], order: &Order)
    requires setting { Setting given.now work.old }
    requires spans { Spans given.now.layout.names done.old }
    ensures { Followed given.now work.old work.new }
{
    let mut near = None;
    for x in order.nodes(given.layout.names) {
        first_row(given, work, waiting, done, x, near);
        line::add(done, x);
        near = Some(x);
    }
}

// The marks that names give, and those of each row by what lies above it, one row after the other in the order.
pub fn begin(given: &Given, work: &mut [u8], waiting: &mut Waiting, order: &Order)
    requires { Setting given.now work.old }
    ensures { Grows (Step given.now) (mark_square given.now.layout) work.old work.new }
{
    mark_names(given, work);
    let mut done = [0u8; Line::LENGTH];
    first_rows(given, work, waiting, &mut done, order);
}
