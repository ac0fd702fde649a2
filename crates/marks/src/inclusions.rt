// Marks handed along the inclusions of another square, or of the same one: a row takes the marks of the rows above it, or gives its own
// to them. What lies above a row that is done needs no look of its own, once that row is looked at.
ghost use Rattle.std.specs.Prelude.{suc, ◌≤◌};
ghost use Rattle.marks.specs.Squares.{Room, Marked};
ghost use Rattle.marks.specs.Passes.{Pass, Below};
ghost use Rattle.marks.specs.Lines.{Spans, Empty};
ghost use Rattle.marks.specs.Inclusions.{Alike, Handed, Reaches, Hands, Done, Given, Rest, Covering, Near, Others};

use crate::line::Line;
use crate::order::Order;
use crate::{Square, line};

// Whether a row takes the marks of the rows above it, or gives its own to them. An enum and no closure: so one theorem says both directions.
#[derive(Clone, Copy, Debug, PartialEq, Eq)]
pub enum Direction {
    Down,
    Up,
}

// The square of the inclusions along which marks are handed, the square of the marks, and the direction. The lines `done` and `covered` stay
// parameters: the one is read and the other written, each in a call of its own.
#[derive(Clone, Copy, Debug, PartialEq, Eq)]
pub struct Handing {
    pub inclusions: Square,
    pub marks: Square,
    pub direction: Direction,
    ghost alike: { Alike inclusions marks },
}

// Adds to the line what lies above c, if c is done.
fn cover(covered: &mut [u8], work: &[u8], inclusions: Square, done: &[u8], c: usize)
    requires room { Room inclusions work.now }
    requires spans { Spans inclusions.names done.now × Spans inclusions.names covered.old }
    requires c_le_names { c ≤ inclusions.names }
    ensures { Covering inclusions done.now c work.now covered.old covered.new }
{
    if line::has(done, c) {
        inclusions.join(work, c, covered);
    }
}

impl Handing {
    // Marks in row x what row c has, which lies above it, or the other way round. Whether a mark is new.
    fn absorb(self, work: &mut [u8], x: usize, c: usize) -> bool
        requires room { Room self.marks work.old }
        requires x_le_names { (x ≤ self.inclusions.names) × (c ≤ self.inclusions.names) }
        requires marked { Marked self.inclusions work.old x c }
        ensures { Pass (Handed self.direction self.inclusions self.marks) self.marks (Reaches self.direction self.marks c x) work.old work.new result }
    {
        match self.direction {
            Direction::Down => self.marks.absorb(work, c, x),
            Direction::Up => self.marks.absorb(work, x, c),
        }
    }

    // Marks what `absorb` does, and what lies above c needs no look if c is done. Whether a mark is new.
    fn hand_one(self, work: &mut [u8], done: &[u8], covered: &mut [u8], x: usize, c: usize) -> bool
        requires room { Room self.inclusions work.old × Room self.marks work.old }
        requires spans { Spans self.inclusions.names done.now × Spans self.inclusions.names covered.old }
        requires x_le_names { (x ≤ self.inclusions.names) × (c ≤ self.inclusions.names) }
        requires marked { Marked self.inclusions work.old x c }
        ensures pass { Pass (Handed self.direction self.inclusions self.marks) self.marks (Reaches self.direction self.marks c x) work.old work.new result }
        ensures covering { Covering self.inclusions done.now c work.new covered.old covered.new }
    {
        let new = self.absorb(work, x, c);
        cover(covered, work, self.inclusions, done, c);
        new
    }

    // Does what `hand_one` does with a row that need not lie above, if there is one and it does. Whether a mark is new.
    fn hand_near(
        self,
        work: &mut [u8],
        done: &[u8],
        covered: &mut [u8],
        x: usize,
        near: Option<usize>,
    ) -> bool
        requires room { Room self.inclusions work.old × Room self.marks work.old }
        requires spans { Spans self.inclusions.names done.now × Spans self.inclusions.names covered.old }
        requires x_le_names { x ≤ self.inclusions.names }
        ensures { Pass (Handed self.direction self.inclusions self.marks) self.marks
            (Near (Reaches self.direction self.marks) self.inclusions done.now covered.old covered.new x) work.old work.new result }
    {
        match near {
            Some(c) if c <= self.inclusions.names && self.inclusions.is_marked(work, x, c) => {
                self.hand_one(work, done, covered, x, c)
            }
            _ => false,
        }
    }

    // Looks at all rows above row x that the line does not have. Whether a mark is new. The loop writes the line and the memory that it
    // searches, so no iterator can hold them.
    fn hand_others(self, work: &mut [u8], done: &[u8], covered: &mut [u8], x: usize) -> bool
        requires room { Room self.inclusions work.old × Room self.marks work.old }
        requires spans { Spans self.inclusions.names done.now × Spans self.inclusions.names covered.old }
        requires x_le_names { x ≤ self.inclusions.names }
        ensures { Pass (Handed self.direction self.inclusions self.marks) self.marks (Others (Reaches self.direction self.marks) self.inclusions done.now covered.old x) work.old work.new result }
    {
        let mut changed = false;
        let mut from = 0;
        while let Some(above) = self.inclusions.next_outside(work, x, covered, from) {
            from = above + 1;
            let new = self.hand_one(work, done, covered, x, above);
            changed |= new;
        }
        changed
    }

    // Hands the marks of row x and of the rows above it. Whether a mark is new. `near` is looked at first: most lies above it, as a rule.
    pub fn hand(self, work: &mut [u8], done: &[u8], x: usize, near: Option<usize>) -> bool
        requires room { Room self.inclusions work.old × Room self.marks work.old }
        requires spans { Spans self.inclusions.names done.now }
        requires x_le_names { x ≤ self.inclusions.names }
        ensures { Pass (Handed self.direction self.inclusions self.marks) self.marks
            (Given self.inclusions.names done.now (Hands self.direction self.inclusions self.marks) x) work.old work.new result }
    {
        let mut covered = [0u8; Line::LENGTH];
        let first = self.hand_near(work, done, &mut covered, x, near);
        let others = self.hand_others(work, done, &mut covered, x);
        first | others
    }

    // Hands the marks of the rows of the order, one after the other, each of which is done then. Whether a mark is new.
    fn hand_in_order(self, work: &mut [u8], done: &mut [u8], order: &Order) -> bool
        requires room { Room self.inclusions work.old × Room self.marks work.old }
        requires spans { Spans self.inclusions.names done.old × Empty done.old }
        ensures { Pass (Handed self.direction self.inclusions self.marks) self.marks (Done self.inclusions.names done.new (Hands self.direction self.inclusions self.marks)) work.old work.new result }
    {
        let mut changed = false;
        let mut near = None;
        for x in order.nodes(self.inclusions.names) {
            let new = self.hand(work, done, x, near);
            changed |= new;
            line::add(done, x);
            near = Some(x);
        }
        changed
    }

    // Hands the marks of all rows that are not done. Whether a mark is new.
    fn hand_rest(self, work: &mut [u8], done: &[u8]) -> bool
        requires room { Room self.inclusions work.old × Room self.marks work.old }
        requires spans { Spans self.inclusions.names done.now }
        ensures { Pass (Handed self.direction self.inclusions self.marks) self.marks (Rest self.inclusions.names done.now (Hands self.direction self.inclusions self.marks)) work.old work.new result }
    {
        let mut changed = false;
        for x in 0..=self.inclusions.names {
            if line::has(done, x) {
                continue;
            }
            let new = self.hand(work, done, x, None);
            changed |= new;
        }
        changed
    }

    // Hands the marks of all rows, those of the order first. Whether a mark is new.
    pub fn hand_all(self, work: &mut [u8], order: &Order) -> bool
        requires { Room self.inclusions work.old × Room self.marks work.old }
        ensures { Pass (Handed self.direction self.inclusions self.marks) self.marks (Below (Hands self.direction self.inclusions self.marks) (suc self.inclusions.names)) work.old work.new result }
    {
        let mut done = [0u8; Line::LENGTH];
        let first = self.hand_in_order(work, &mut done, order);
        let rest = self.hand_rest(work, &done);
        first | rest
    }
}
