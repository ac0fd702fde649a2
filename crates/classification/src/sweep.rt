// Passes over the whole square, until one finds nothing left to mark.
ghost use Rattle.std.specs.Prelude.{◌≡◌, suc, ◌<◌};
ghost use Rattle.release.specs.Tables.{kind_at};
ghost use Rattle.marks.specs.Squares.{Kept};
ghost use Rattle.marks.specs.Passes.{Pass, Closed, Below};
ghost use Rattle.marks.proofs.Squares.{frame_area};
ghost use Rattle.marks.proofs.Passes.{grows_frame, room_stays};
ghost use Rattle.classification.specs.Steps.{Of, Step, Seeded, Settled, GatheredAt, FilledAt, AxiomSettled, Setting, SeededSetting};

use crate::Classification;
use crate::hints::list_below;
use marks::Square;
use marks::inclusions::{Direction, Handing};
use marks::order::Order;
use marks::rules::{Rules, close};
use marks::waiting::Waiting;
use release::Kind;

impl<'a> Classification<'a> {
    // Marks x ⊑ x and x ⊑ ⊤ for all x. Whether a mark is new.
    fn seed_all(&self, work: &mut [u8]) -> bool
        requires { Of Setting self.now work.old }
        ensures { Pass (Of Step self.now) self.now.square (Below (Seeded self.now.square) (suc self.now.square.names)) work.old work.new result }
    {
        let mut changed = false;
        for x in 0..self.nodes() {
            let seeded = self.seed(work, x);
            changed |= seeded;
        }
        changed
    }

    // Marks the defined conjunction y in each row in which all its conjuncts are marked. Whether a mark is new. Most rows lack its first conjunct:
    // they are passed over by one look at a cell, before the walk of the conjuncts is made. By itself, and with a copy of what it works on, so
    // that the compiler has registers for the loop; so too the next one.
    #[inline(never)]
    fn gather_column(&self, work: &mut [u8], y: usize) -> bool
        requires seeded_setting { Of SeededSetting self.now work.old }
        requires y_lt_names { y < self.now.square.names }
        requires y_value { kind_at self.now.terminology.table.now y ≡ 2 }
        ensures { Pass (Of Step self.now) self.now.square (Below (Of GatheredAt self.now y) (suc self.now.square.names)) work.old work.new result }
    {
        let own = *self;
        let first = own.first_part(y);
        let mut changed = false;
        for row in 0..self.nodes() {
            if own.square.is_marked(work, row, first) {
                let gathered = own.gather(work, row, y);
                changed |= gathered;
            }
        }
        changed
    }

    // Marks the defined restriction y in the row of each restriction that serves for it. Whether a mark is new.
    #[inline(never)]
    fn fill_column(&self, work: &mut [u8], y: usize) -> bool
        requires seeded_setting { Of SeededSetting self.now work.old }
        requires y_lt_names { y < self.now.square.names }
        requires y_value { kind_at self.now.terminology.table.now y ≡ 4 }
        ensures { Pass (Of Step self.now) self.now.square (Below (FilledAt self.now.terminology.table.now self.now.square y) self.now.square.names) work.old work.new result }
    {
        let own = *self;
        let role = own.terminology.role(y);
        let serving = own.terminology.under(role);
        let filler = own.terminology.filler(y);
        let mut changed = false;
        for b in 0..own.square.names {
            if own.terminology.is_restriction(b) && own.fills(work, b, y, serving, filler) {
                let new = own.square.mark(work, b, y);
                changed |= new;
            }
        }
        changed
    }

    // Marks what the axiom of x gives: its conjuncts in its row, and its column where it defines x. Whether a mark is new.
    fn mark_axiom(&self, work: &mut [u8], x: usize) -> bool
        requires seeded_setting { Of SeededSetting self.now work.old }
        requires x_lt_names { x < self.now.square.names }
        ensures { Pass (Of Step self.now) self.now.square (Of AxiomSettled self.now x) work.old work.new result }
    {
        match self.terminology.kind(x) {
            Some(Kind::DefinedRestriction) => self.fill_column(work, x),
            Some(Kind::DefinedConjunction) => {
                let gathered = self.gather_column(work, x);
                let parts = self.mark_parts(work, x, x);
                gathered | parts
            }
            Some(Kind::PrimitiveConjunction) => self.mark_parts(work, x, x),
            Some(Kind::PrimitiveRestriction) => false,
            None => false,
        }
    }

    // Marks what all axioms give. Whether a mark is new.
    fn mark_axioms(&self, work: &mut [u8]) -> bool
        requires { Of SeededSetting self.now work.old }
        ensures { Pass (Of Step self.now) self.now.square (Below (Of AxiomSettled self.now) self.now.square.names) work.old work.new result }
    {
        let mut changed = false;
        for x in 0..self.square.names {
            let new = self.mark_axiom(work, x);
            changed |= new;
        }
        changed
    }

    // Writes the hints: where to look, and what the rows have so far.
    fn prepare(&self, work: &mut [u8])
        requires { Of Setting self.now work.old }
        ensures { Kept self.now.square work.old work.new }
    {
        self.list(work);
        self.square.see_all(work);
    }

    // Passes until nothing is left to mark. What a pass finds is followed up from row to row before the next one.
    pub(crate) fn close(&self, work: &mut [u8], order: &Order)
        requires { Of Setting self.now work.old }
        ensures { Closed (Of Step self.now) self.now.square (Below (Of Settled self.now) (suc self.now.square.names)) work.old work.new }
    {
        let mut waiting = Waiting::new();
        self.prepare(work);
        close(self, work, &mut waiting, order);
    }
}

impl<'a> Rules for Classification<'a> {
    ghost marks = { λ c. c.square };

    ghost setting = { Of Setting };

    ghost allowed = { Of Step };

    ghost follows = { Of Step };

    ghost wider = { λ c w x y step. step };

    ghost done = { λ c. Below (Of Settled c) (suc c.square.names) };

    fn marks(&self) -> Square {
        self.square
    }

    // Over a copy, of which the compiler keeps the parts in registers.
    fn deal(&self, work: &mut [u8], waiting: &mut Waiting, x: usize) {
        let own = *self;
        own.deal_with(work, waiting, x);
    }

    // Those that are not as they were seen.
    fn wait_for_new(&self, work: &mut [u8], waiting: &mut Waiting) {
        list_below(self.square, work);
        self.square.wait_for_new(work, waiting);
    }

    // First what is marked in any row, then what the axioms give, then what the rows above each row have. The pass goes no further where a
    // mark is new, since what is left is found faster from there.
    fn pass(&self, work: &mut [u8], order: &Order) -> bool {
        if self.seed_all(work) {
            return true;
        }
        if self.mark_axioms(work) {
            return true;
        }
        let handing = Handing {
            inclusions: self.square,
            marks: self.square,
            direction: Direction::Down,
        };
        handing.hand_all(work, order)
    }

    ghost stays = { λ c w v g s. record { shaped = s.shaped; room = room_stays g s.room; area = frame_area (grows_frame g) s.area; few = s.few } };
}
