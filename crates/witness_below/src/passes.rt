// Looks at all pairs that are asked for, until one pass changes nothing or the pair that is wanted is marked.
ghost use Rattle.std.specs.Prelude.{◌≡◌, true, suc, ◌+◌, ◌*◌, ◌≤◌, ◌<◌, length};
ghost use Rattle.witness_below.specs.Cells.{value_at};
ghost use Rattle.witness_below.specs.Finding.{PlainPair, NotesRoom};
ghost use Rattle.witness_below.specs.Tasks.{State, ToLook, Looked, Passed, Chased, Done};

use crate::cells::{OPEN, cell, value};
use crate::finding::{find_name, is_joined};
use crate::looking::{Leaf, Progress, look_at_column, look_at_filler, look_at_parts, mark_node};
use crate::tracing::{Walk, go_on};
use layout::Given;
use release::{ConceptName, Kind};

// Looks at the pair x, y, where x is a name that is not defined by a conjunction of the first release, and y by none of the second.
fn look_at_name(
    given: &Given,
    work: &mut [u8],
    rows: &mut [u32],
    numbers: &mut [u32],
    x: usize,
    y: usize,
    count: usize,
) -> Progress
    requires { ToLook given.now x y count rows.old numbers.old work.old × PlainPair given.now x y }
    ensures { Looked given.now x y count rows.old rows.new numbers.old numbers.new work.old work.new result }
{
    if let Some(name) = find_name(given, work, x, y) {
        return mark_node(given, work, rows, numbers, x, y, Leaf::name(name), count);
    }
    if given.first.has_kind(x, Kind::DefinedRestriction) {
        return look_at_filler(given, work, rows, x, y, count);
    }
    Progress::idle(count)
}

// Looks at the pair x, y.
fn look(
    given: &Given,
    work: &mut [u8],
    rows: &mut [u32],
    numbers: &mut [u32],
    x: usize,
    y: usize,
    count: usize,
) -> Progress
    requires { ToLook given.now x y count rows.old numbers.old work.old }
    ensures { Looked given.now x y count rows.old rows.new numbers.old numbers.new work.old work.new result }
{
    if is_joined(given, y) {
        let changed = look_at_column(given, work, x, y);
        return Progress {
            rows: count,
            changed,
        };
    }
    if given.layout.names <= x {
        let top = Leaf::top(x);
        return mark_node(given, work, rows, numbers, x, y, top, count);
    }
    if given.first.has_kind(x, Kind::DefinedConjunction) {
        return look_at_parts(given, work, rows, numbers, x, y, count);
    }
    look_at_name(given, work, rows, numbers, x, y, count)
}

// Looks at each pair that is asked for and not marked, until the pair of the name with itself is marked.
fn pass(
    given: &Given,
    work: &mut [u8],
    rows: &mut [u32],
    numbers: &mut [u32],
    name: ConceptName,
    count: usize,
) -> Progress
    requires { State given.now count rows.old numbers.old work.old × (name.0 ≤ given.now.layout.names) }
    ensures { Passed given.now (suc given.now.layout.names * suc given.now.layout.names) count rows.old rows.new numbers.old numbers.new work.old work.new result }
{
    let columns = given.layout.names + 1;
    let mut so_far = Progress::idle(count);
    for pair in 0..columns * columns {
        if value(work, given.layout.marks, pair) != OPEN {
            continue;
        }
        let x = pair / columns;
        let y = pair % columns;
        let step = look(given, work, rows, numbers, x, y, so_far.rows);
        so_far.rows = step.rows;
        so_far.changed |= step.changed;
        if step.changed && OPEN < cell(work, given.layout, name.0, name.0) {
            return so_far;
        }
    }
    so_far
}

// How many rows are written, and whether a pair waits for another one.
#[derive(Clone, Copy)]
struct Visited {
    rows: usize,
    waits: bool,
}

// Looks at a pair, if it is asked for and not marked. It waits where the look asked for another pair.
fn visit(
    given: &Given,
    work: &mut [u8],
    rows: &mut [u32],
    numbers: &mut [u32],
    pair: usize,
    count: usize,
) -> Visited
    requires { State given.now count rows.old numbers.old work.old × (pair < (given.now.layout.names + 1) * (given.now.layout.names + 1)) }
    ensures chased { Chased given.now count rows.old rows.new numbers.old numbers.new work.old work.new result.rows }
    ensures waits { result.waits ≡ true → value_at work.new given.now.layout.marks pair ≡ 1 }
{
    let columns = given.layout.names + 1;
    if value(work, given.layout.marks, pair) != OPEN {
        return Visited {
            rows: count,
            waits: false,
        };
    }
    let x = pair / columns;
    let y = pair % columns;
    let step = look(given, work, rows, numbers, x, y, count);
    let waits = step.changed && value(work, given.layout.marks, pair) == OPEN;
    Visited {
        rows: step.rows,
        waits,
    }
}

// So many looks are had for each pair at most, in `chase`: more are seldom asked for, and what is left the passes do.
const LOOKS: usize = 4;

// Looks at the pair of the name with itself, and at once at a pair that a look asks for; a pair that waits is looked at again when that is
// done. Only the passes see to it that nothing is left out.
fn chase(
    given: &Given,
    work: &mut [u8],
    rows: &mut [u32],
    numbers: &mut [u32],
    notes: &mut [u32],
    name: ConceptName,
    count: usize,
) -> usize
    requires { State given.now count rows.old numbers.old work.old × (name.0 < given.now.layout.names) × NotesRoom notes.old }
    ensures { Chased given.now count rows.old rows.new numbers.old numbers.new work.old work.new result × (length notes.new ≡ length notes.old) }
{
    let columns = given.layout.names + 1;
    let end = columns * columns;
    let mut walk = Walk {
        at: name.0 * columns + name.0,
        depth: 0,
        low: 0,
    };
    let mut written = count;
    for _ in 0..LOOKS * end {
        if end <= walk.at {
            return written;
        }
        let visited = visit(given, work, rows, numbers, walk.at, written);
        written = visited.rows;
        let Some(next) = go_on(given, work, notes, walk, visited.waits) else {
            return written;
        };
        walk = next;
    }
    written
}

// Passes until the pair of the name with itself is marked, or one changes nothing. No `for`, since nobody knows before how many passes that
// takes; each that changes something leaves fewer pairs to do.
pub fn close(
    given: &Given,
    work: &mut [u8],
    rows: &mut [u32],
    numbers: &mut [u32],
    notes: &mut [u32],
    name: ConceptName,
) -> usize
    requires { State given.now 0 rows.old numbers.old work.old × (name.0 < given.now.layout.names) × NotesRoom notes.old }
    ensures { Done given.now name.0 0 rows.old rows.new numbers.old numbers.new work.old work.new result × (length notes.new ≡ length notes.old) }
{
    let mut written = 0;
    loop {
        written = chase(given, work, rows, numbers, notes, name, written);
        if OPEN < cell(work, given.layout, name.0, name.0) {
            return written;
        }
        let step = pass(given, work, rows, numbers, name, written);
        written = step.rows;
        if !step.changed {
            return written;
        }
    }
}
