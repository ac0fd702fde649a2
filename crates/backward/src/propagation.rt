// Marks that names give, handed on. That this misses nothing is not proved and need not be: the passes after it (sweep) find what it
// missed.
ghost use Rattle.std.specs.Prelude.{◌≤◌};
ghost use Rattle.marks.specs.Passes.{Grows};
ghost use Rattle.layout.specs.Layouts.{mark_square};
ghost use Rattle.backward.specs.Rules.{Named, Squares, NameLost, FromBelow};

use crate::sweep::look_at_name;
use layout::Given;
use marks::inclusions::{Direction, Handing};
use marks::line::Line;
use marks::order::Order;

// Marks each name of the signature with all that it is not below by the second release.
pub fn mark_names(given: &Given, work: &mut [u8])
    requires { Named given.now work.old }
    ensures { Grows (NameLost given.now) (mark_square given.now.layout) work.old work.new }
{
    for x in 0..given.layout.names {
        look_at_name(given, work, x);
    }
}

// Hands the marks of row x on. The rows that are left hand on to those above them what they get, so they stand for these.
fn hand_up(
    given: &Given,
    work: &mut [u8],
    left: &mut [u8; Line::LENGTH],
    x: usize,
    near: Option<usize>,
)
    requires squares { Squares given.now.layout work.old }
    requires x_le_names { x ≤ given.now.layout.names }
    ensures { Grows (FromBelow given.now.layout) (mark_square given.now.layout) work.old work.new }
{
    // crate marks adds columns to lines; here alone one is taken out, which a function with its contract would not make plainer
    left[x / 8] ^= 1 << (x % 8);
    let handing = Handing {
        inclusions: given.layout.first_square(),
        marks: given.layout.mark_square(),
        direction: Direction::Up,
    };
    handing.hand(work, left, x, near);
}

// Hands the marks of all rows on, those of lower rows first.
pub fn hand_all_up(given: &Given, work: &mut [u8], order: &Order)
    requires { Squares given.now.layout work.old }
    ensures { Grows (FromBelow given.now.layout) (mark_square given.now.layout) work.old work.new }
{
    let mut left = [255u8; Line::LENGTH];
    // one row ahead
    let mut ahead = order.nodes(given.layout.names).rev();
    ahead.next();
    for x in order.nodes(given.layout.names).rev() {
        let near = ahead.next();
        hand_up(given, work, &mut left, x, near);
    }
}
