// What the new marks of a row give: marks put at the cells that depend on them, each as a rule allows. A row that gets one waits.
// Where to look is read from hints and lines of which nothing is said, so each rule is tested at its cell. The loops that ask `next_hint`
// write the memory that it searches, so no iterator can hold it.
// The memory and the rows that wait are parameters of their own, as in crate backward (consequences), where a struct of them was tried.
ghost use Rattle.std.specs.Prelude.{◌≤◌};
ghost use Rattle.el.proofs.Tests.{Tells};
ghost use Rattle.release.specs.Tables.{HasRow};
ghost use Rattle.marks.specs.Squares.{Room, Area, Kept};
ghost use Rattle.marks.specs.Passes.{Grows, FromRow};
ghost use Rattle.marks.specs.Inclusions.{Taking};
ghost use Rattle.classification.specs.Steps.{Of, Grown, Setting, InRow, MarkedCell, FilledBy, Restriction, Over};

use crate::Classification;
use crate::hints::{BELOW, CONJUNCTS, FILLERS};
use marks::columns;
use marks::line::Line;
use marks::waiting::Waiting;
use release::{Kind, RoleIndex};

impl<'a> Classification<'a> {
    // Hands row c on to row x, which waits if it had not all of it.
    fn hand_over(&self, work: &mut [u8], waiting: &mut Waiting, c: usize, x: usize)
        requires room { Room self.now.square work.old }
        requires c_le_names { (c ≤ self.now.square.names) × (x ≤ self.now.square.names) }
        ensures { Grows (FromRow self.now.square c x) self.now.square work.old work.new }
    {
        if !self.square.seems_within(work, c, x) {
            self.square.hand_on(work, c, x);
            waiting.wait(x);
        }
    }

    // The defined conjunctions with the conjunct y of which all conjuncts are marked in row x.
    fn put_gathered(&self, work: &mut [u8], waiting: &mut Waiting, x: usize, y: usize)
        requires { Of InRow self.now work.old x y }
        ensures { Grown self.now work.old work.new }
    {
        let mut from = 0;
        while let Some(conjunction) = self.square.next_hint(work, CONJUNCTS, y, from) {
            from = conjunction + 1;
            if conjunction < self.square.names
                && self.gathers(work, x, conjunction)
                && self.square.mark(work, x, conjunction)
            {
                waiting.wait(x);
            }
        }
    }

    // What x ⊑ y gives in row x: what lies above y, and the conjunctions with this conjunct.
    fn put_beside(&self, work: &mut [u8], waiting: &mut Waiting, x: usize, y: usize)
        requires { Of MarkedCell self.now work.old x y }
        ensures { Grown self.now work.old work.new }
    {
        self.hand_over(work, waiting, y, x);
        if y < self.square.names {
            self.put_gathered(work, waiting, x, y);
        }
    }

    // What x ⊑ y gives in row x, for all y of the line.
    fn put_above(&self, work: &mut [u8], waiting: &mut Waiting, line: &[u8; Line::LENGTH], x: usize)
        requires setting { Of Setting self.now work.old }
        requires x_le_names { x ≤ self.now.square.names }
        ensures { Grown self.now work.old work.new }
    {
        for y in columns::of(line, self.square.names) {
            if self.square.is_marked(work, x, y) {
                self.put_beside(work, waiting, x, y);
            }
        }
    }

    // Whether z is a defined restriction with this filler, and the role serves for it. Crate backward has a test of the role alone
    // (`is_filled`): what it asks of the filler differs from place to place.
    fn is_defined_by(&self, z: usize, role: RoleIndex, filler: usize) -> bool
        requires { HasRow z }
        ensures { Tells result (FilledBy self.now.terminology.table.now z role.0 filler) }
    {
        self.terminology.has_kind(z, Kind::DefinedRestriction)
            && self.terminology.filler(z) == filler
            && self.terminology.serves(role, self.terminology.role(z))
    }

    // The defined restrictions with the filler y that the role of b serves for; b is a restriction whose filler lies below y.
    fn put_over(&self, work: &mut [u8], waiting: &mut Waiting, b: usize, y: usize)
        requires { Of Over self.now work.old b y }
        ensures { Grown self.now work.old work.new }
    {
        let role = self.terminology.role(b);
        let mut from = 0;
        while let Some(above) = self.square.next_hint(work, FILLERS, y, from) {
            from = above + 1;
            if above < self.square.names
                && self.is_defined_by(above, role, y)
                && self.square.mark(work, b, above)
            {
                waiting.wait(b);
            }
        }
    }

    // The defined restrictions that lie above b by an inclusion of its filler x in a y of the line.
    fn put_filled(
        &self,
        work: &mut [u8],
        waiting: &mut Waiting,
        line: &[u8; Line::LENGTH],
        x: usize,
        b: usize,
    )
        requires { Of Restriction self.now work.old x b }
        ensures { Grown self.now work.old work.new }
    {
        for y in columns::of(line, self.square.names) {
            if self.square.is_marked(work, x, y) {
                self.put_over(work, waiting, b, y);
            }
        }
    }

    // What `put_filled` puts, for all restrictions b with the filler x.
    fn put_by_fillers(
        &self,
        work: &mut [u8],
        waiting: &mut Waiting,
        line: &[u8; Line::LENGTH],
        x: usize,
    )
        requires setting { Of Setting self.now work.old }
        requires x_le_names { x ≤ self.now.square.names }
        ensures { Grown self.now work.old work.new }
    {
        let mut from = 0;
        while let Some(restriction) = self.square.next_hint(work, FILLERS, x, from) {
            from = restriction + 1;
            if restriction < self.square.names
                && self.terminology.is_restriction(restriction)
                && self.terminology.filler(restriction) == x
                && self.square.is_marked(work, restriction, restriction)
            {
                self.put_filled(work, waiting, line, x, restriction);
            }
        }
    }

    // Notes that x lies below each y of the line, so that `hand_down` of y finds x without a look at all rows.
    fn note_below(&self, work: &mut [u8], line: &[u8; Line::LENGTH], x: usize)
        requires area { Area self.now.square work.old × (self.now.square.names ≤ 1023) }
        requires x_le_names { x ≤ self.now.square.names }
        ensures { Kept self.now.square work.old work.new }
    {
        for y in columns::of(line, self.square.names) {
            self.square.put_hint(work, BELOW, y, x);
        }
    }

    // Hands row x on to each row that x is marked in, as far as it is noted.
    fn hand_down(&self, work: &mut [u8], waiting: &mut Waiting, x: usize)
        requires area { Area self.now.square work.old }
        requires x_le_names { x ≤ self.now.square.names }
        ensures { Grows (Taking self.now.square self.now.square) self.now.square work.old work.new }
    {
        let mut from = 0;
        while let Some(lower) = self.square.next_hint(work, BELOW, x, from) {
            from = lower + 1;
            if self.square.is_marked(work, lower, x) {
                self.hand_over(work, waiting, x, lower);
            }
        }
    }

    // All that the marks of row x give that are new since it was dealt with last.
    pub(crate) fn deal_with(&self, work: &mut [u8], waiting: &mut Waiting, x: usize)
        requires setting { Of Setting self.now work.old }
        requires x_le_names { x ≤ self.now.square.names }
        ensures { Grown self.now work.old work.new }
    {
        let mut line = [0u8; Line::LENGTH];
        self.square.see(work, x, &mut line);
        self.note_below(work, &line, x);
        self.put_above(work, waiting, &line, x);
        self.put_by_fillers(work, waiting, &line, x);
        self.hand_down(work, waiting, x);
    }
}
