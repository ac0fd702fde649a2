// Which pair a pair waits for, and the pairs that wait. Only hints: whatever they answer, the passes find what is left.
ghost use Rattle.std.specs.Prelude.{◌≡◌, suc, ◌*◌, ◌-◌, ◌/◌, ◌≤◌, ◌<◌, length, max, IfSome, ◌+◌};
ghost use Rattle.row_evaluation.specs.RowForms.{most};
ghost use Rattle.witness_below.specs.Finding.{block, Traced, ToFollow, NotesRoom};

use crate::cells::pair;
use crate::finding::{asked_column_part, find_partner, find_row_part, is_joined};
use layout::Given;
use release::Kind;
use row_evaluation::rows::{narrow, wide};

// A pair that the pair x, y may wait for, if there is one.
fn follow(given: &Given, work: &[u8], x: usize, y: usize) -> Option<usize>
    requires { ToFollow given.now work.now x y }
    ensures { IfSome result (λ p. p < suc given.now.layout.names * suc given.now.layout.names) }
{
    let layout = given.layout;
    if is_joined(given, y) {
        let part = asked_column_part(given, work, x, y)?;
        return Some(pair(layout, x, part));
    }
    if layout.names <= x {
        return None;
    }
    if given.first.has_kind(x, Kind::DefinedConjunction) {
        let part = find_row_part(given, work, x, y)?;
        return Some(pair(layout, part, y));
    }
    if !given.first.has_kind(x, Kind::DefinedRestriction) {
        return None;
    }
    let partner = find_partner(given, x, y)?;
    Some(pair(layout, given.first.filler(x), partner.over))
}

// Pairs that wait are noted in blocks of so many: those of the last two blocks one by one, and behind them the first pair of each block.
const BLOCK: usize = 512;

// Room for so many first pairs, so that a chain of 524,288 pairs is found again; those further down write over the first.
const FIRSTS: usize = 2 * BLOCK;

// How many numbers are lent for that.
pub const NOTES: usize = 2 * BLOCK + FIRSTS;

// Notes a pair that waits, the one at this depth.
fn note(notes: &mut [u32], depth: usize, pair: usize)
    requires { NotesRoom notes.old × (pair ≤ most) }
    ensures { length notes.new ≡ length notes.old }
{
    notes[depth % (2 * BLOCK)] = narrow(pair);
    if depth % BLOCK != 0 {
        return;
    }
    notes[2 * BLOCK + depth / BLOCK % FIRSTS] = narrow(pair);
}

// Notes the pairs of a block again, from its first on.
fn retrace(given: &Given, work: &[u8], notes: &mut [u32], block: usize, pair: usize)
    requires { Traced given.now work.now × NotesRoom notes.old }
    ensures { length notes.new ≡ length notes.old }
{
    let columns = given.layout.names + 1;
    let end = columns * columns;
    let mut at = pair;
    for next in 0..BLOCK {
        if end <= at {
            return;
        }
        notes[block % 2 * BLOCK + next] = narrow(at);
        let Some(waited) = follow(given, work, at / columns, at % columns) else {
            return;
        };
        at = waited;
    }
}

// Sees to it that the pair at this depth is noted, where those of the blocks from `low` on are: from which block on they are then.
fn recall(given: &Given, work: &[u8], notes: &mut [u32], low: usize, depth: usize) -> usize
    requires { Traced given.now work.now × NotesRoom notes.old }
    ensures long { length notes.new ≡ length notes.old }
    ensures earlier { result ≤ low }
{
    let block = depth / BLOCK;
    if low <= block {
        return low;
    }
    let pair = wide(notes[2 * BLOCK + block % FIRSTS]);
    retrace(given, work, notes, block, pair);
    block
}

// The first of the last two blocks, once a pair at this depth is noted.
fn lowest(low: usize, depth: usize) -> usize
    ensures { result ≡ max low (depth / block - 1) }
{
    low.max((depth / BLOCK).saturating_sub(1))
}

// Where looks go on: the pair, how many pairs wait, and from which block on these are noted.
#[derive(Clone, Copy)]
pub struct Walk {
    pub at: usize,
    pub depth: usize,
    pub low: usize,
}

// The next pair to look at: one that this pair waits for; or, where it waits for none, the one that waited for it, if there is one.
pub fn go_on(given: &Given, work: &[u8], notes: &mut [u32], walk: Walk, waits: bool) -> Option<Walk>
    requires room { Traced given.now work.now × NotesRoom notes.old }
    requires inside { (walk.at < (given.now.layout.names + 1) * (given.now.layout.names + 1)) × (walk.depth ≤ most) }
    ensures long { length notes.new ≡ length notes.old }
    ensures depth { IfSome result (λ next. next.depth ≤ walk.depth + 1) }
{
    if waits {
        let columns = given.layout.names + 1;
        note(notes, walk.depth, walk.at);
        let at = follow(given, work, walk.at / columns, walk.at % columns)?;
        let low = lowest(walk.low, walk.depth);
        return Some(Walk {
            at,
            depth: walk.depth + 1,
            low,
        });
    }
    let depth = walk.depth.checked_sub(1)?;
    let low = recall(given, work, notes, walk.low, depth);
    Some(Walk {
        at: wide(notes[depth % (2 * BLOCK)]),
        depth,
        low,
    })
}
