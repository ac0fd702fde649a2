// The marks that conjuncts alone give. That this misses nothing is not proved and need not be: the passes after it (sweep) find what it
// missed.
ghost use Rattle.std.specs.Prelude.{◌≤◌};
ghost use Rattle.classification.specs.Steps.{Of, Grown, Setting};

use crate::Classification;
use marks::order::Order;

impl<'a> Classification<'a> {
    // x ⊑ x, x ⊑ ⊤, and the conjuncts of x.
    fn start_row(&self, work: &mut [u8], x: usize)
        requires setting { Of Setting self.now work.old }
        requires x_le_names { x ≤ self.now.square.names }
        ensures { Grown self.now work.old work.new }
    {
        self.seed(work, x);
        if x < self.square.names && self.terminology.is_conjunction(x) {
            self.mark_parts(work, x, x);
        }
    }

    // x ⊑ x, x ⊑ ⊤, and the conjuncts of x, for all x.
    fn start(&self, work: &mut [u8])
        requires { Of Setting self.now work.old }
        ensures { Grown self.now work.old work.new }
    {
        for x in 0..self.nodes() {
            self.start_row(work, x);
        }
    }

    // In the row of ⊤ the names that mean everything: the conjunctions of no names. Whether there is one.
    fn start_top(&self, work: &mut [u8]) -> bool
        requires { Of Setting self.now work.old }
        ensures { Grown self.now work.old work.new }
    {
        let mut some = false;
        for y in 0..self.square.names {
            if self.gathers(work, self.square.names, y) {
                self.square.mark(work, self.square.names, y);
                some = true;
            }
        }
        some
    }

    // Hands the row of a node on to each row that it is marked in. By itself, so that the compiler has registers for the loop.
    #[inline(never)]
    fn hand_on_row(&self, work: &mut [u8], node: usize)
        requires setting { Of Setting self.now work.old }
        requires node_le_names { node ≤ self.now.square.names }
        ensures { Grown self.now work.old work.new }
    {
        let square = self.square;
        for x in 0..self.nodes() {
            if square.is_marked(work, x, node) {
                square.hand_on(work, node, x);
            }
        }
    }

    // Hands on the rows of all conjunctions, one after the other: then all is marked that follows by conjuncts alone (Warshall). This holds for any
    // order; in one in which conjuncts come first, a row is complete before it is handed on, and few have to be.
    fn hand_on_rows(&self, work: &mut [u8], order: &Order)
        requires { Of Setting self.now work.old }
        ensures { Grown self.now work.old work.new }
    {
        for name in order.nodes(self.square.names) {
            if name < self.square.names && self.terminology.is_conjunction(name) {
                self.hand_on_row(work, name);
            }
        }
    }

    // Marks what follows by conjuncts alone, the names that mean everything in each row, and writes an order in which each node comes
    // after what it lies below by them.
    pub(crate) fn begin(&self, work: &mut [u8], order: &mut Order)
        requires { Of Setting self.now work.old }
        ensures { Grown self.now work.old work.new }
    {
        self.start(work);
        let some = self.start_top(work);
        order.sort(work, self.square, |_| None);
        self.hand_on_rows(work, order);
        if some {
            self.hand_on_row(work, self.square.names);
        }
    }
}
