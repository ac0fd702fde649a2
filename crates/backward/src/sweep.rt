// Passes over all pairs, until one finds nothing left to mark.
ghost use Rattle.std.specs.Prelude.{◌≡◌, suc, ◌≤◌, ◌<◌};
ghost use Rattle.release.specs.Tables.{kind_at, Shaped};
ghost use Rattle.marks.specs.Squares.{Room};
ghost use Rattle.marks.specs.Passes.{Pass, Closed, Below};
ghost use Rattle.layout.specs.Layouts.{mark_square};
ghost use Rattle.backward.specs.Rules.{Setting, setting_stays, follows_step, Rows, Named, NameLost, PartLost, PlainLost, Own, Follows, Step, Cell, Row, Column, Quiet};

use crate::consequences::deal;
use crate::rules::{column_lost, is_plain, may_be_lost, some_part_lost};
use layout::Given;
use marks::inclusions::{Direction, Handing};
use marks::line::Line;
use marks::order::Order;
use marks::rules::Rules;
use marks::waiting::Waiting;
use marks::{Square, rules};
use release::Kind;

// Marks x with all that it is not below by the second release, if it is a name of the signature. Whether a mark is new.
pub fn look_at_name(given: &Given, work: &mut [u8], x: usize) -> bool
    requires named { Named given.now work.old }
    requires x_le_names { x ≤ given.now.layout.names }
    ensures { Pass (NameLost given.now) (mark_square given.now.layout) (Row (NameLost given.now) given.now.layout x) work.old work.new result }
{
    if given.has_name(x) {
        let marks = given.layout.mark_square();
        let mut row = [0u8; Line::LENGTH];
        given.layout.second_square().join(work, x, &mut row);
        let names = marks.absorb_missing(work, x, &row);
        let nothing = marks.mark(work, x, given.layout.names);
        return names | nothing;
    }
    false
}

// Marks the pair x, y if the definition of x allows it and y is not defined by a conjunction. Whether the mark is new.
fn look_at_pair(given: &Given, work: &mut [u8], x: usize, y: usize) -> bool
    requires rows { Rows given.now work.old }
    requires x_le_names { (x ≤ given.now.layout.names) × (y ≤ given.now.layout.names) }
    ensures { Pass (PlainLost given.now) (mark_square given.now.layout) (Cell (PlainLost given.now) given.now.layout x y) work.old work.new result }
{
    if !is_plain(given, y) {
        return false;
    }
    if column_lost(given, work, x, y) {
        return given.layout.mark_square().mark(work, x, y);
    }
    false
}

// Looks at all pairs of row x that are not marked, in this way. Whether a mark is new.
fn look_at_columns(given: &Given, work: &mut [u8], x: usize) -> bool
    requires rows { Rows given.now work.old }
    requires x_le_names { x ≤ given.now.layout.names }
    ensures { Pass (PlainLost given.now) (mark_square given.now.layout) (Row (PlainLost given.now) given.now.layout x) work.old work.new result }
{
    let marks = given.layout.mark_square();
    let mut changed = false;
    let mut next = 0;
    // the loop writes the memory that it searches, so no iterator can hold it
    while let Some(y) = marks.next_unmarked(work, x, next) {
        next = y + 1;
        let new = look_at_pair(given, work, x, y);
        changed |= new;
    }
    changed
}

// Looks at row x so, unless its definition allows no mark. Whether a mark is new.
fn look_at_row(given: &Given, work: &mut [u8], x: usize) -> bool
    requires rows { Rows given.now work.old }
    requires x_le_names { x ≤ given.now.layout.names }
    ensures { Pass (PlainLost given.now) (mark_square given.now.layout) (Row (PlainLost given.now) given.now.layout x) work.old work.new result }
{
    if may_be_lost(given, x) {
        return look_at_columns(given, work, x);
    }
    false
}

// Marks the pair x, y, where y is a conjunction of the second release, if x is marked with a conjunct. Whether the mark is new.
fn look_at_parts(given: &Given, work: &mut [u8], x: usize, y: usize) -> bool
    requires shaped { Shaped given.now.layout.names given.now.second.file.now given.now.second.table.now }
    requires room { Room (mark_square given.now.layout) work.old }
    requires x_le_names { (x ≤ given.now.layout.names) × (y < given.now.layout.names) × (kind_at given.now.second.table.now y ≡ 2) }
    ensures { Pass (PartLost given.now) (mark_square given.now.layout) (Cell (PartLost given.now) given.now.layout x y) work.old work.new result }
{
    let marks = given.layout.mark_square();
    if marks.is_marked(work, x, y) {
        return false;
    }
    if some_part_lost(given, work, x, y) {
        return marks.mark(work, x, y);
    }
    false
}

// Looks at all pairs of column y so, if y is a conjunction. Whether a mark is new.
fn look_at_column(given: &Given, work: &mut [u8], y: usize) -> bool
    requires shaped { Shaped given.now.layout.names given.now.second.file.now given.now.second.table.now }
    requires room { Room (mark_square given.now.layout) work.old }
    requires y_lt_names { y < given.now.layout.names }
    ensures { Pass (PartLost given.now) (mark_square given.now.layout) (Column (PartLost given.now) given.now.layout y) work.old work.new result }
{
    if !given.second.has_kind(y, Kind::DefinedConjunction) {
        return false;
    }
    let mut changed = false;
    for x in 0..=given.layout.names {
        let new = look_at_parts(given, work, x, y);
        changed |= new;
    }
    changed
}

// One pass over all pairs: for each name its row and its column, and the row of ⊤. Whether a mark is new.
fn look_at_names(given: &Given, work: &mut [u8]) -> bool
    requires { Setting given.now work.old }
    ensures { Pass (Own given.now) (mark_square given.now.layout) (Below (Row (Own given.now) given.now.layout) (suc given.now.layout.names)) work.old work.new result }
{
    let mut changed = false;
    for x in 0..given.layout.names {
        let by_row = look_at_row(given, work, x);
        let by_name = look_at_name(given, work, x);
        let by_column = look_at_column(given, work, x);
        changed |= by_row | (by_name | by_column);
    }
    let top = look_at_row(given, work, given.layout.names);
    changed | top
}

// The rules of backward marks, by which a square is closed. What marks by them are functions and no methods here: a method would have as many
// parameters, and its clauses one field more to go through. `Setting` stands in their contracts, as it says of the memory what `given` asks.
#[derive(Clone, Copy, Debug, PartialEq, Eq)]
struct LostBelow<'a> {
    given: &'a Given<'a>,
}

impl<'a> Rules for LostBelow<'a> {
    ghost marks = { λ r. mark_square r.given.now.layout };

    ghost setting = { λ r. Setting r.given.now };

    ghost allowed = { λ r. Step r.given.now };

    ghost follows = { λ r. Follows r.given.now };

    ghost done = { λ r. Quiet r.given.now };

    ghost wider = { λ r w x y f. follows_step f };

    ghost stays = { λ r w v grows h. setting_stays grows h };

    fn marks(&self) -> Square {
        self.given.layout.mark_square()
    }

    fn deal(&self, work: &mut [u8], waiting: &mut Waiting, x: usize) {
        deal(self.given, work, waiting, x);
    }

    fn wait_for_new(&self, work: &mut [u8], waiting: &mut Waiting) {
        self.marks().wait_for_new(work, waiting);
    }

    // Over all pairs, and if nothing is new there, over all rows with the rows above them.
    fn pass(&self, work: &mut [u8], order: &Order) -> bool {
        if look_at_names(self.given, work) {
            return true;
        }
        let handing = Handing {
            inclusions: self.given.layout.first_square(),
            marks: self.marks(),
            direction: Direction::Up,
        };
        handing.hand_all(work, order)
    }
}

// Passes until nothing is left to mark. What a pass finds is dealt with before the next one.
pub fn close(given: &Given, work: &mut [u8], order: &Order)
    requires { Setting given.now work.old }
    ensures { Closed (Step given.now) (mark_square given.now.layout) (Quiet given.now) work.old work.new }
{
    let mut waiting = Waiting::new();
    given.layout.mark_square().see_all(work);
    rules::close(&LostBelow { given }, work, &mut waiting, order);
}
