// Classification: all inclusions between the nodes of an accepted release.
#![tactic(auto)]

ghost use Rattle.std.specs.Prelude.{◌≡◌, suc, ◌≤◌};
ghost use Rattle.classification.specs.Inclusions.{Unclassified, Classified};

use marks::Square;
use marks::order::Order;
use release::terminology::Terminology;

mod consequences;
pub mod hints;
mod propagation;
mod rules;
mod sweep;

// A terminology, and the square in which the inclusions between its nodes are marked. The memory is no part of it, since calls write it: so
// what has to hold of both stands in the contracts (`Of Setting`), not in a ghost field.
#[derive(Clone, Copy)]
struct Classification<'a> {
    terminology: Terminology<'a>,
    square: Square,
}

impl<'a> Classification<'a> {
    // How many nodes there are: the names, and ⊤.
    fn nodes(&self) -> usize
        requires { self.now.square.names ≤ 1023 }
        ensures { result ≡ suc self.now.square.names }
    {
        self.square.names + 1
    }
}

// Marks in the square, row x and column y, each derivable inclusion x ⊑ y: names by their numbers, then ⊤.
pub fn classify(terminology: &Terminology, work: &mut [u8], square: Square)
    requires { Unclassified terminology.now.file.now terminology.now.table.now square work.old }
    ensures { Classified terminology.now.file.now square work.old work.new }
{
    let classification = Classification {
        terminology: *terminology,
        square,
    };
    let mut order = Order::new();
    classification.begin(work, &mut order);
    classification.close(work, &order);
}
