// What new marks give: marks put at the pairs that depend on them, each as a rule allows. A row with a new mark waits, to be dealt with
// in its turn. Where to look is read from hints and lines of which nothing is said, so each rule is tested at its pair.
// Each `while let` here writes the memory that it searches, so no iterator can hold it; those over a line, which is not written, have one.
// What is given, the memory and the rows that wait are three parameters. A struct of the three was tried: each method has a clause more, that
// the memory is still the same reference, and the check does not cover one that lends two of the fields to a call (`put_lost`).
ghost use Rattle.std.specs.Prelude.{◌≤◌, ◌<◌};
ghost use Rattle.marks.specs.Squares.{Room, Put};
ghost use Rattle.marks.specs.Passes.{Grows};
ghost use Rattle.layout.specs.Layouts.{mark_square, Areas};
ghost use Rattle.backward.specs.Rules.{Setting, Squares, Filling, Over, FromBelow, Followed};

use crate::rules::{defined_lost, is_filling, serving};
use classification::hints::{CONJUNCTS, FILLERS};
use layout::Given;
use marks::columns;
use marks::line::Line;
use marks::waiting::Waiting;

// Marks the pair x, y. A row with a new mark waits. Whether the mark is new.
fn put(given: &Given, work: &mut [u8], waiting: &mut Waiting, x: usize, y: usize) -> bool
    requires room { Room (mark_square given.now.layout) work.old }
    requires x_le_names { (x ≤ given.now.layout.names) × (y ≤ given.now.layout.names) }
    ensures { Put (mark_square given.now.layout) x y work.old work.new result }
{
    let new = given.layout.mark_square().mark(work, x, y);
    if new {
        waiting.wait(x);
    }
    new
}

// The pair x, y, if the definitions allow it. A pair that is marked already is asked no rule.
fn put_lost(given: &Given, work: &mut [u8], waiting: &mut Waiting, x: usize, y: usize)
    requires setting { Setting given.now work.old }
    requires x_le_names { (x ≤ given.now.layout.names) × (y ≤ given.now.layout.names) }
    ensures { Followed given.now work.old work.new }
{
    if given.layout.mark_square().is_marked(work, x, y) {
        return;
    }
    if defined_lost(given, work, x, y) {
        put(given, work, waiting, x, y);
    }
}

// What is lost in row x.
fn put_row(given: &Given, work: &mut [u8], waiting: &mut Waiting, x: usize)
    requires setting { Setting given.now work.old }
    requires x_le_names { x ≤ given.now.layout.names }
    ensures { Followed given.now work.old work.new }
{
    let marks = given.layout.mark_square();
    let mut next = 0;
    while let Some(y) = marks.next_unmarked(work, x, next) {
        next = y + 1;
        put_lost(given, work, waiting, x, y);
    }
}

// What is lost in row x, in the columns of a line.
fn put_line(
    given: &Given,
    work: &mut [u8],
    waiting: &mut Waiting,
    line: &[u8; Line::LENGTH],
    x: usize,
)
    requires setting { Setting given.now work.old }
    requires x_le_names { x ≤ given.now.layout.names }
    ensures { Followed given.now work.old work.new }
{
    for y in columns::of(line, given.layout.names) {
        put_lost(given, work, waiting, x, y);
    }
}

// Row x, a restriction whose filler is marked with y: the columns of the restrictions of the second release with the filler y that a role
// serves for with which x has an edge. Crate classification has a function of this name: there the mark is an inclusion, which its own rule
// allows.
fn put_over(given: &Given, work: &mut [u8], waiting: &mut Waiting, x: usize, y: usize)
    requires areas { Areas given.now.layout work.old }
    requires x_lt_names { (x < given.now.layout.names) × (y ≤ given.now.layout.names) }
    ensures { Grows (Over given.now x y) (mark_square given.now.layout) work.old work.new }
{
    let inclusions = given.layout.second_square();
    let mut next = 0;
    while let Some(name) = inclusions.next_hint(work, FILLERS, y, next) {
        next = name + 1;
        if serving(given, x, name).is_empty() {
            continue;
        }
        if given.second.filler(name) != y {
            continue;
        }
        put(given, work, waiting, x, name);
    }
}

// What is lost in row x, a restriction whose filler is marked with the columns of the line: where one is nothing, in any column; else
// in those of the restrictions with such a filler.
fn put_filled(
    given: &Given,
    work: &mut [u8],
    waiting: &mut Waiting,
    line: &[u8; Line::LENGTH],
    filler: usize,
    x: usize,
)
    requires setting { Setting given.now work.old }
    requires filling { Filling given.now x filler }
    ensures { Followed given.now work.old work.new }
{
    let marks = given.layout.mark_square();
    for y in columns::of(line, given.layout.names) {
        if given.layout.names <= y {
            put_row(given, work, waiting, x);
        } else if marks.is_marked(work, filler, y) {
            put_over(given, work, waiting, x, y);
        }
    }
}

// What is lost in the rows of the restrictions of the first release with this filler, which is marked with the columns of the line.
fn put_by_filler(
    given: &Given,
    work: &mut [u8],
    waiting: &mut Waiting,
    line: &[u8; Line::LENGTH],
    filler: usize,
)
    requires setting { Setting given.now work.old }
    requires filler_le_names { filler ≤ given.now.layout.names }
    ensures { Followed given.now work.old work.new }
{
    let inclusions = given.layout.first_square();
    let mut next = 0;
    while let Some(x) = inclusions.next_hint(work, FILLERS, filler, next) {
        next = x + 1;
        if is_filling(given, x, filler) {
            put_filled(given, work, waiting, line, filler, x);
        }
    }
}

// What is lost in the rows of the conjunctions of the first release with this conjunct, in the columns of the line.
fn put_by_part(
    given: &Given,
    work: &mut [u8],
    waiting: &mut Waiting,
    line: &[u8; Line::LENGTH],
    part: usize,
)
    requires setting { Setting given.now work.old }
    requires part_le_names { part ≤ given.now.layout.names }
    ensures { Followed given.now work.old work.new }
{
    let inclusions = given.layout.first_square();
    let mut next = 0;
    while let Some(x) = inclusions.next_hint(work, CONJUNCTS, part, next) {
        next = x + 1;
        put_line(given, work, waiting, line, x);
    }
}

// What is lost in row x, in the columns of the conjunctions of the second release with the conjunct y.
fn put_columns(given: &Given, work: &mut [u8], waiting: &mut Waiting, x: usize, y: usize)
    requires setting { Setting given.now work.old }
    requires x_le_names { (x ≤ given.now.layout.names) × (y ≤ given.now.layout.names) }
    ensures { Followed given.now work.old work.new }
{
    let inclusions = given.layout.second_square();
    let mut next = 0;
    while let Some(name) = inclusions.next_hint(work, CONJUNCTS, y, next) {
        next = name + 1;
        put_lost(given, work, waiting, x, name);
    }
}

// What is lost in row x, in the columns of the conjunctions of the second release with a conjunct in the line.
fn put_all_columns(
    given: &Given,
    work: &mut [u8],
    waiting: &mut Waiting,
    line: &[u8; Line::LENGTH],
    x: usize,
)
    requires setting { Setting given.now work.old }
    requires x_le_names { x ≤ given.now.layout.names }
    ensures { Followed given.now work.old work.new }
{
    for y in columns::of(line, given.layout.names) {
        put_columns(given, work, waiting, x, y);
    }
}

// The marks of row `lower` in each row above it by the first release.
fn put_above(given: &Given, work: &mut [u8], waiting: &mut Waiting, lower: usize)
    requires squares { Squares given.now.layout work.old }
    requires lower_le_names { lower ≤ given.now.layout.names }
    ensures { Grows (FromBelow given.now.layout) (mark_square given.now.layout) work.old work.new }
{
    let inclusions = given.layout.first_square();
    let marks = given.layout.mark_square();
    let mut next = 0;
    while let Some(x) = inclusions.next_marked(work, lower, next) {
        next = x + 1;
        if marks.seems_within(work, lower, x) {
            continue;
        }
        marks.hand_on(work, lower, x);
        waiting.wait(x);
    }
}

// All that the new marks of row x give.
pub fn deal(given: &Given, work: &mut [u8], waiting: &mut Waiting, x: usize)
    requires setting { Setting given.now work.old }
    requires x_le_names { x ≤ given.now.layout.names }
    ensures { Followed given.now work.old work.new }
{
    let mut line = [0u8; Line::LENGTH];
    given.layout.mark_square().see(work, x, &mut line);
    put_above(given, work, waiting, x);
    put_by_filler(given, work, waiting, &line, x);
    put_by_part(given, work, waiting, &line, x);
    put_all_columns(given, work, waiting, &line, x);
}
