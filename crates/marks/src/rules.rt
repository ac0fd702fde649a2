// Marks put by rules until none is left: rows with new marks are dealt with until none waits, and passes over the whole square follow until
// one finds nothing left to mark. That dealing with rows misses nothing is not proved and need not be: the passes find what it missed.
ghost use Rattle.std.specs.Prelude.{◌≡◌, List, ℕ, ◌≤◌};
ghost use Rattle.marks.specs.declared.Square.{Square as MarkSquare};
ghost use Rattle.marks.specs.Passes.{Grows, Pass, Closed};

use crate::Square;
use crate::order::Order;
use crate::waiting::Waiting;

// The rules by which marks are put in a square: what they ask of the memory, what a row with new marks gives, and what a pass looks at.
pub trait Rules {
    // the square that the marks stand in
    ghost marks: { Self → MarkSquare };

    // what the memory has to hold
    ghost setting: { Self → List ℕ → Type 0 };

    // in which row and column a mark is allowed
    ghost allowed: { Self → List ℕ → ℕ → ℕ → Type 0 };

    // in which row and column a mark follows from new ones
    ghost follows: { Self → List ℕ → ℕ → ℕ → Type 0 };

    // that nothing is left to mark
    ghost done: { Self → List ℕ → Type 0 };

    fn marks(&self) -> Square
        ensures { result ≡ marks self.now };

    // Puts what follows from the new marks of row x.
    fn deal(&self, work: &mut [u8], waiting: &mut Waiting, x: usize)
        requires setting { setting self.now work.old }
        requires row { x ≤ (marks self.now).names }
        ensures { Grows (follows self.now) (marks self.now) work.old work.new };

    // Lets the rows wait that have marks which were not dealt with.
    fn wait_for_new(&self, work: &mut [u8], waiting: &mut Waiting)
        requires { setting self.now work.old }
        ensures { Grows (follows self.now) (marks self.now) work.old work.new };

    // Looks at everything. Whether a mark is new.
    fn pass(&self, work: &mut [u8], order: &Order) -> bool
        requires { setting self.now work.old }
        ensures { Pass (allowed self.now) (marks self.now) (done self.now) work.old work.new result };

    // what follows is allowed
    ghost wider: { (r : Self) (w : List ℕ) (x y : ℕ) → follows r w x y → allowed r w x y };

    // the memory holds what it has to after marks were put
    ghost stays: { (r : Self) (w v : List ℕ) → Grows (allowed r) (marks r) w v → setting r w → setting r v };
}

// Deals with the rows that wait, until none does. By counted turns, since nothing is known of how long rows wait.
pub fn deal_with_all<R: Rules>(rules: &R, work: &mut [u8], waiting: &mut Waiting)
    requires { R.setting rules.now work.old }
    ensures { Grows (R.follows rules.now) (R.marks rules.now) work.old work.new }
{
    let names = rules.marks().names;
    for _ in 0..Waiting::TURNS {
        let Some(x) = waiting.take() else {
            return;
        };
        if names < x {
            return;
        }
        rules.deal(work, waiting, x);
    }
}

// Passes until nothing is left to mark. What follows from the marks that a pass found is put before the next one.
pub fn close<R: Rules>(rules: &R, work: &mut [u8], waiting: &mut Waiting, order: &Order)
    requires { R.setting rules.now work.old }
    ensures { Closed (R.allowed rules.now) (R.marks rules.now) (R.done rules.now) work.old work.new }
{
    while rules.pass(work, order) {
        rules.wait_for_new(work, waiting);
        deal_with_all(rules, work, waiting);
    }
}
