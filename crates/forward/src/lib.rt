// Forward marks: the pairs x, y such that some signature concept lies above x by the first release and not above y by the second.
#![tactic(auto)]

ghost use Rattle.forward.specs.Rules.{Setting};
ghost use Rattle.forward.specs.Forward.{ForwardFrom};

use crate::sweep::LostAbove;
use layout::Given;
use marks::order::Order;
use marks::rules;
use marks::waiting::Waiting;

mod asked;
mod consequences;
mod hints;
mod kept;
mod partner;
mod propagation;
mod sweep;

// The first marks, all that follows from them, and passes until one is quiet. It is never inlined, nor is the function that sorts: what each of
// them keeps need not stand on the stack together.
#[inline(never)]
fn mark_in_order(given: &Given, work: &mut [u8], order: &Order)
    requires { Setting given.now work.old }
    ensures { ForwardFrom given.now work.old work.new }
{
    let mut waiting = Waiting::new();
    let lost = LostAbove { given };
    hints::list(given, work);
    propagation::begin(given, work, &mut waiting, order);
    rules::deal_with_all(&lost, work, &mut waiting);
    rules::close(&lost, work, &mut waiting, order);
}

// Marks those pairs. The inclusions of the second release are there also with rows and columns exchanged. The order, and what waits, are
// hints.
pub fn mark_lost_above(given: &Given, work: &mut [u8])
    requires { Setting given.now work.old }
    ensures { ForwardFrom given.now work.old work.new }
{
    let mut order = Order::new();
    propagation::sort(given, work, &mut order);
    mark_in_order(given, work, &order);
}
