// What lies below, or above, each row of a written concept by a release: a byte for each row and node.
#![tactic(auto)]

use crate::cells::Cells;
use marks::Square;
use release::terminology::Terminology;

pub mod above;
pub mod below;
pub mod cells;
pub mod formed;
pub mod rows;

// What rows are evaluated by: a release, the square of its inclusions, and where the bytes of the rows begin, behind that square. A row has a
// byte for each node of the square, so where they begin is all that has to be said of them.
#[derive(Clone, Copy, Debug, PartialEq, Eq)]
pub struct Evaluation<'a> {
    pub terminology: Terminology<'a>,
    pub square: Square,
    pub base: usize,
}

impl<'a> Evaluation<'a> {
    ghost use Rattle.std.specs.Prelude.{◌≡◌, ◌≤◌};
    ghost use Rattle.el.proofs.Tests.{Tells};
    ghost use Rattle.row_evaluation.specs.Cells.{Holds, RowRoom, Adds};
    ghost use Rattle.row_evaluation.specs.Worlds.{cells_of};

    // The bytes of the rows.
    fn cells(&self) -> Cells
        ensures { result ≡ cells_of self.now }
    {
        Cells {
            base: self.base,
            names: self.square.names,
        }
    }

    // Whether row i has node x.
    fn holds(&self, work: &[u8], i: usize, x: usize) -> bool
        requires room { RowRoom self.now.base self.now.square.names i work.now }
        requires x_le_names { x ≤ self.now.square.names }
        ensures { Tells result (Holds work.now self.now.base self.now.square.names i x) }
    {
        self.cells().holds(work, i, x)
    }

    // Puts node x into row i.
    fn put(&self, work: &mut [u8], i: usize, x: usize)
        requires room { RowRoom self.now.base self.now.square.names i work.old }
        requires x_le_names { x ≤ self.now.square.names }
        ensures { Adds self.now.base self.now.square.names i (λ y. y ≡ x) work.old work.new }
    {
        self.cells().put(work, i, x);
    }
}
