// Backward marks: the pairs x, y such that some signature concept lies below x by the first release and not below y by the second.
// The last column is not ⊤ but nothing, below which no concept lies.
#![tactic(auto)]

ghost use Rattle.layout.specs.Comparing.{Comparing};
ghost use Rattle.backward.specs.Backward.{BackwardFrom};

pub use crate::rules::serving;
use layout::Given;
use marks::order::Order;

mod consequences;
mod propagation;
mod rules;
mod sweep;

// Marks those pairs, given the names of the signature, the edges with a role of it, the two releases and the squares of their inclusions.
pub fn mark_lost_below(given: &Given, work: &mut [u8])
    requires { Comparing given.now.first.file.now given.now.second.file.now given.now work.old }
    ensures { BackwardFrom given.now work.old work.new }
{
    let mut order = Order::new();
    order.sort(work, given.layout.first_square(), |_| None);
    propagation::mark_names(given, work);
    propagation::hand_all_up(given, work, &order);
    sweep::close(given, work, &order);
}
