// The bytes of rows: one for each node.
ghost use Rattle.std.specs.Prelude.{◌≡◌, ◌≤◌, ◌<◌};
ghost use Rattle.el.proofs.Tests.{Tells};
ghost use Rattle.row_evaluation.specs.Cells.{Holds, RowRoom, Adds};

// Where they begin, and how many names there are: names + 1 bytes a row, row after row.
#[derive(Clone, Copy, Debug, PartialEq, Eq)]
pub struct Cells {
    pub base: usize,
    pub names: usize,
}

impl Cells {
    // Whether row i has node x.
    pub fn holds(self, work: &[u8], i: usize, x: usize) -> bool
        requires room { RowRoom self.base self.names i work.now }
        requires x_le_names { x ≤ self.names }
        ensures { Tells result (Holds work.now self.base self.names i x) }
    {
        work[self.base + (i * (self.names + 1) + x)] == 1
    }

    // Puts node x into row i.
    pub(crate) fn put(self, work: &mut [u8], i: usize, x: usize)
        requires room { RowRoom self.base self.names i work.old }
        requires x_le_names { x ≤ self.names }
        ensures { Adds self.base self.names i (λ y. y ≡ x) work.old work.new }
    {
        work[self.base + (i * (self.names + 1) + x)] = 1;
    }

    // Puts all nodes into row i.
    pub(crate) fn put_all(self, work: &mut [u8], i: usize)
        requires { RowRoom self.base self.names i work.old }
        ensures { Adds self.base self.names i (λ x. x ≤ self.names) work.old work.new }
    {
        for x in 0..=self.names {
            self.put(work, i, x);
        }
    }

    // Puts the nodes into row i that rows j and k have.
    pub(crate) fn put_both(self, work: &mut [u8], i: usize, j: usize, k: usize)
        requires room { RowRoom self.base self.names i work.old }
        requires earlier { (j < i) × (k < i) }
        ensures { Adds self.base self.names i (λ x. Holds work.old self.base self.names j x × Holds work.old self.base self.names k x) work.old work.new }
    {
        for x in 0..=self.names {
            if self.holds(work, j, x) && self.holds(work, k, x) {
                self.put(work, i, x);
            }
        }
    }
}
