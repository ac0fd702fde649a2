// A look at one pair x, y: a row is kept for it, another pair is asked for, or nothing is done.
ghost use Rattle.std.specs.Prelude.{◌≡◌, true, ◌+◌, ◌*◌, ◌≤◌, ◌<◌, length, MatchOption};
ghost use Rattle.release.specs.Tables.{count_at};
ghost use Rattle.concept_rows.specs.Lent.{row_at};
ghost use Rattle.row_evaluation.specs.RowForms.{Narrow, numbers_of};
ghost use Rattle.witness_below.specs.Cells.{CellRoom};
ghost use Rattle.witness_below.specs.Finding.{ToColumn, ToParts, ToFiller, RoomFor, AllMarked, RowThere};
ghost use Rattle.witness_below.specs.Looking.{NodeRowed, NodeMarked, ColumnLooked, NoneAsked, PartAsked, NoneJoined, PartsJoined, PartsLooked, FillerLooked};

use crate::cells::{OPEN, ROW, UNASKED, cell, put_cell};
use crate::finding::{find_column_part, find_partner, find_row_part};
use layout::Given;
use release::ConceptName;
use row_evaluation::rows::{Form, narrow, put_row, read_row, wide};

// How many rows are written, and whether something changed.
#[derive(Clone, Copy)]
pub struct Progress {
    pub rows: usize,
    pub changed: bool,
}

impl Progress {
    ghost use Rattle.std.specs.Prelude.{◌≡◌, true, false};
    ghost use Rattle.witness_below.specs.Looking.{progress};

    pub fn idle(rows: usize) -> Progress
        ensures { result ≡ progress rows false }
    {
        Progress {
            rows,
            changed: false,
        }
    }

    pub fn made(rows: usize) -> Progress
        ensures { result ≡ progress rows true }
    {
        Progress {
            rows,
            changed: true,
        }
    }
}

// A row, and how many rows are written.
#[derive(Clone, Copy)]
pub struct Joined {
    pub row: usize,
    pub rows: usize,
}

// A node whose row is made of no others, ⊤ or a name: its number, and the form of the row.
#[derive(Clone, Copy)]
pub struct Leaf {
    pub node: usize,
    pub form: Form,
}

impl Leaf {
    ghost use Rattle.std.specs.Prelude.{◌≡◌};
    ghost use Rattle.row_evaluation.specs.declared.rows.Form.TheVariants.{Top, Name};
    ghost use Rattle.witness_below.specs.Looking.{leaf};

    pub fn top(names: usize) -> Leaf
        ensures { result ≡ leaf names Top }
    {
        Leaf {
            node: names,
            form: Form::Top,
        }
    }

    pub fn name(name: ConceptName) -> Leaf
        ensures { result ≡ leaf name.0 (Name name) }
    {
        Leaf {
            node: name.0,
            form: Form::Name(name),
        }
    }
}

// Whether row i is of the form, that of ⊤ or of a name. A no may be wrong: then the row is written once more.
fn is_row(rows: &[u32], i: usize, form: Form) -> bool
    requires { 3 * i + 3 ≤ length rows.now }
    ensures { result ≡ true → row_at rows.now i ≡ numbers_of form }
{
    let Some(read) = read_row(rows, i) else {
        return false;
    };
    match (read, form) {
        (Form::Top, Form::Top) => true,
        (Form::Name(own), Form::Name(name)) => own.0 == name.0,
        _ => false,
    }
}

// The row of ⊤ or of a name: the one that is noted for the node, or else a new one, which is noted.
fn node_row(rows: &mut [u32], numbers: &mut [u32], leaf: Leaf, count: usize) -> usize
    requires room_for { RoomFor count 1 rows.old }
    requires leaf_small { Narrow leaf.form × (leaf.node < length numbers.old) }
    ensures { NodeRowed leaf.form count rows.old rows.new result × (length numbers.new ≡ length numbers.old) }
{
    let noted = wide(numbers[leaf.node]);
    if noted < count && is_row(rows, noted, leaf.form) {
        return noted;
    }
    put_row(rows, count, leaf.form);
    numbers[leaf.node] = narrow(count);
    count
}

// Keeps the row of ⊤ or of a name for the pair x, y.
pub fn mark_node(
    given: &Given,
    work: &mut [u8],
    rows: &mut [u32],
    numbers: &mut [u32],
    x: usize,
    y: usize,
    leaf: Leaf,
    count: usize,
) -> Progress
    requires cell_room { CellRoom given.now.layout work.old × (x ≤ given.now.layout.names) × (y ≤ given.now.layout.names) }
    requires room_for { RoomFor count 1 rows.old × Narrow leaf.form × (leaf.node < length numbers.old) }
    ensures { NodeMarked given.now.layout x y leaf.form count rows.old rows.new work.old work.new result
        × (length numbers.new ≡ length numbers.old) }
{
    let row = node_row(rows, numbers, leaf, count);
    put_cell(work, given.layout, x, y, row + ROW);
    if row == count {
        return Progress::made(count + 1);
    }
    Progress::made(count)
}

// Looks at the pair x, y, where y is defined by a conjunction of the second release. Whether something changed.
pub fn look_at_column(given: &Given, work: &mut [u8], x: usize, y: usize) -> bool
    requires { ToColumn given.now work.old x y }
    ensures { ColumnLooked given.now x y work.old work.new result }
{
    let Some(part) = find_column_part(given, work, x, y) else {
        return false;
    };
    let kept = cell(work, given.layout, x, part);
    if kept == UNASKED {
        put_cell(work, given.layout, x, part, OPEN);
        return true;
    }
    put_cell(work, given.layout, x, y, kept);
    true
}

// Asks for the first conjunct of x that is not marked with y, if there is one: whether that is new.
fn ask_part(given: &Given, work: &mut [u8], x: usize, y: usize) -> Option<bool>
    requires { ToParts given.now work.old x y }
    ensures { MatchOption result (NoneAsked given.now x y work.old work.new) (PartAsked given.now x y work.old work.new) }
{
    let part = find_row_part(given, work, x, y)?;
    if cell(work, given.layout, part, y) == UNASKED {
        put_cell(work, given.layout, part, y, OPEN);
        return Some(true);
    }
    Some(false)
}

// Writes the row of all conjuncts of x, which are marked with y, if x has some.
fn join_parts(
    given: &Given,
    work: &[u8],
    rows: &mut [u32],
    x: usize,
    y: usize,
    count: usize,
) -> Option<Joined>
    requires to_parts { ToParts given.now work.now x y }
    requires room_for { RoomFor count (count_at given.now.first.file.now given.now.first.table.now x) rows.old }
    requires all_marked { AllMarked given.now work.now x y }
    ensures { MatchOption result (NoneJoined given.now x rows.old rows.new) (PartsJoined given.now work.now x y count rows.old rows.new) }
{
    let mut parts = given.first.parts(x);
    let begin = parts.next()?;
    let mut row = cell(work, given.layout, begin, y) - ROW;
    let mut written = count;
    for part in parts {
        let kept = cell(work, given.layout, part, y);
        put_row(rows, written, Form::Conjunction(row, kept - ROW));
        row = written;
        written += 1;
    }
    Some(Joined { row, rows: written })
}

// Looks at the pair x, y, where x is defined by a conjunction of the first release, and y by none of the second.
pub fn look_at_parts(
    given: &Given,
    work: &mut [u8],
    rows: &mut [u32],
    numbers: &mut [u32],
    x: usize,
    y: usize,
    count: usize,
) -> Progress
    requires to_parts { ToParts given.now work.old x y }
    requires room_for { RoomFor count (count_at given.now.first.file.now given.now.first.table.now x) rows.old × RoomFor count 1 rows.old }
    requires numbers { given.now.layout.names < length numbers.old }
    ensures { PartsLooked given.now x y count rows.old rows.new work.old work.new result
        × (length numbers.new ≡ length numbers.old) }
{
    if let Some(changed) = ask_part(given, work, x, y) {
        return Progress {
            rows: count,
            changed,
        };
    }
    let Some(joined) = join_parts(given, work, rows, x, y, count) else {
        let top = Leaf::top(given.layout.names);
        return mark_node(given, work, rows, numbers, x, y, top, count);
    };
    put_cell(work, given.layout, x, y, joined.row + ROW);
    Progress::made(joined.rows)
}

// Looks at the pair x, y, where x is defined by a restriction of the first release, and y by no conjunction of the second.
pub fn look_at_filler(
    given: &Given,
    work: &mut [u8],
    rows: &mut [u32],
    x: usize,
    y: usize,
    count: usize,
) -> Progress
    requires { ToFiller given.now work.old x y × RoomFor count 1 rows.old }
    ensures { FillerLooked given.now x y count rows.old rows.new work.old work.new result }
{
    let Some(partner) = find_partner(given, x, y) else {
        return Progress::idle(count);
    };
    let filler = given.first.filler(x);
    let kept = cell(work, given.layout, filler, partner.over);
    if kept == UNASKED {
        put_cell(work, given.layout, filler, partner.over, OPEN);
        return Progress::made(count);
    }
    if kept == OPEN {
        return Progress::idle(count);
    }
    put_row(rows, count, Form::Restriction(partner.role, kept - ROW));
    put_cell(work, given.layout, x, y, count + ROW);
    Progress::made(count + 1)
}
