// The pairs of nodes that the pair asked for leads to, by the edges of both releases. The byte of a pair is 0 until it is noted. Behind the line a row
// of bytes for each name c has the nodes from which the edge by c was followed: so it is followed once from each, however many nodes have it.
ghost use Rattle.std.specs.Prelude.{◌≡◌, ◌≤◌, ◌<◌, length};
ghost use Rattle.el.proofs.Tests.{Tells};
ghost use Rattle.marks.specs.Squares.{Room};
ghost use Rattle.layout.specs.Layouts.{first_square, second_square};
ghost use Rattle.row_evaluation.specs.Cells.{RowRoom};
ghost use Rattle.witness_above.specs.Joining.{line};
ghost use Rattle.witness_above.specs.Reach.{New, NotedPair, Settled, Serving, LeadsBy, RowNoted, SomeEdge, EdgeOf, ToReach, Expanded};
ghost use Rattle.witness_above.specs.Reach.{edge_row, last_row, BytesCleared, EdgesCleared, Followed, EdgeFollowed, Swept, Settling, Blank, Reached};

use crate::pairs::holds;
use layout::{Given, Layout};
use release::roles::RoleSet;

// The byte of a pair that is noted.
const NOTED: u8 = 2;

// The byte of a pair that is noted, and so is all that it leads to.
const SETTLED: u8 = 1;

// Whether a pair is noted, and not yet what it leads to: a byte that is neither 0 nor that of a settled pair, since nothing is known of others.
fn is_new(layout: Layout, work: &[u8], x: usize, y: usize) -> bool
    requires room { RowRoom layout.marks layout.names (line layout.names) work.now }
    requires x_le_names { (x ≤ layout.names) × (y ≤ layout.names) }
    ensures { Tells result (New work.now layout.marks layout.names x y) }
{
    let byte = work[layout.marks + (x * (layout.names + 1) + y)];
    byte != 0 && byte != SETTLED
}

// Notes a pair.
fn note(layout: Layout, work: &mut [u8], x: usize, y: usize)
    requires room { RowRoom layout.marks layout.names (line layout.names) work.old }
    requires x_le_names { (x ≤ layout.names) × (y ≤ layout.names) }
    ensures { NotedPair layout.marks layout.names x y work.old work.new }
{
    let at = layout.marks + (x * (layout.names + 1) + y);
    if work[at] == 0 {
        work[at] = NOTED;
    }
}

// Gives the byte of row x and node y the value of what is settled.
fn settle(layout: Layout, work: &mut [u8], x: usize, y: usize)
    requires room { RowRoom layout.marks layout.names x work.old }
    requires y_le_names { y ≤ layout.names }
    ensures { Settled layout.marks layout.names x y work.old work.new }
{
    work[layout.marks + (x * (layout.names + 1) + y)] = SETTLED;
}

// The roles that serve, by the second release, for a role of the edge of the name c.
fn serving(given: &Given, c: usize) -> RoleSet
    requires { c < given.now.layout.names }
    ensures { Serving given.now c result.0 }
{
    let roles = given.edges[c];
    let mut serving = RoleSet::NONE;
    let mut next = 0;
    while let Some(role) = roles.next(next) {
        next = role.0 + 1;
        serving = serving.join(given.second.under(role));
    }
    serving
}

// Whether y has an edge with one of the roles by the name d, by the second release.
fn leads(given: &Given, work: &[u8], roles: RoleSet, y: usize, d: usize) -> bool
    requires room { Room (second_square given.now.layout) work.now }
    requires y_le_names { (y ≤ given.now.layout.names) × (d < given.now.layout.names) }
    ensures { Tells result (LeadsBy given.now work.now roles.0 y d) }
{
    given.second.is_restriction(d)
        && roles.has(given.second.role(d))
        && given.layout.second_square().is_marked(work, y, d)
}

// Notes the pairs of x and each node that y has an edge to with one of the roles.
fn note_row(given: &Given, work: &mut [u8], roles: RoleSet, x: usize, y: usize)
    requires reach { ToReach given.now work.old }
    requires x_le_names { (x ≤ given.now.layout.names) × (y ≤ given.now.layout.names) }
    ensures { RowNoted given.now roles.0 x y given.now.layout.names work.old work.new }
{
    for d in 0..given.layout.names {
        if leads(given, work, roles, y, d) {
            note(given.layout, work, x, given.second.filler(d));
        }
    }
}

// Notes all that the edge by the name c leads to from y, if it was not followed from y before.
fn follow(given: &Given, work: &mut [u8], c: usize, y: usize)
    requires reach { ToReach given.now work.old }
    requires c_lt_names { (c < given.now.layout.names) × (y ≤ given.now.layout.names) }
    requires edge { SomeEdge given.now c }
    requires followed { Followed given.now work.old }
    ensures { EdgeFollowed given.now c y work.old work.new }
{
    let row = given.layout.names + 2 + c;
    if holds(given.layout, work, row, y) {
        return;
    }
    let roles = serving(given, c);
    let node = given.first.filler(c);
    note_row(given, work, roles, node, y);
    settle(given.layout, work, row, y);
}

// Whether x has an edge with a role of the signature by the name c, by the first release.
fn has_edge(given: &Given, work: &[u8], x: usize, c: usize) -> bool
    requires room { Room (first_square given.now.layout) work.now }
    requires x_le_names { (x ≤ given.now.layout.names) × (c < given.now.layout.names) }
    ensures { Tells result (EdgeOf given.now work.now x c) }
{
    !given.edges[c].is_empty() && given.layout.first_square().is_marked(work, x, c)
}

// Notes all that the pair x, y leads to.
fn expand(given: &Given, work: &mut [u8], x: usize, y: usize)
    requires reach { ToReach given.now work.old }
    requires x_le_names { (x ≤ given.now.layout.names) × (y ≤ given.now.layout.names) }
    requires followed { Followed given.now work.old }
    ensures { Expanded given.now x y given.now.layout.names work.old work.new }
{
    for c in 0..given.layout.names {
        if has_edge(given, work, x, c) {
            follow(given, work, c, y);
        }
    }
}

// Expands the new pairs of x: whether there is one.
fn expand_row(given: &Given, work: &mut [u8], x: usize) -> bool
    requires reach { ToReach given.now work.old }
    requires x_le_names { x ≤ given.now.layout.names }
    requires followed { Followed given.now work.old }
    ensures { Swept given.now (λ a b. a ≡ x) work.old work.new result }
{
    let mut changed = false;
    for y in 0..=given.layout.names {
        if is_new(given.layout, work, x, y) {
            settle(given.layout, work, x, y);
            expand(given, work, x, y);
            changed = true;
        }
    }
    changed
}

// Expands new pairs, each once: whether there is one.
fn expand_all(given: &Given, work: &mut [u8]) -> bool
    requires reach { ToReach given.now work.old }
    requires followed { Followed given.now work.old }
    ensures { Swept given.now (λ a b. a ≤ given.now.layout.names) work.old work.new result }
{
    let mut changed = false;
    for x in 0..=given.layout.names {
        changed |= expand_row(given, work, x);
    }
    changed
}

// Expands pairs until none is new.
fn settle_all(given: &Given, work: &mut [u8])
    requires reach { ToReach given.now work.old }
    requires followed { Followed given.now work.old }
    ensures { Settling given.now work.old work.new }
{
    while expand_all(given, work) {}
}

// Writes 0 from one place up to another: a name for one `fill`, so that its contract says which bytes are as before.
fn clear_between(work: &mut [u8], from: usize, end: usize)
    requires { (from ≤ end) × (end ≤ length work.old) }
    ensures { BytesCleared from end work.old work.new }
{
    work[from..end].fill(0);
}

// Says of no edge that it was followed.
fn clear_edges(layout: Layout, work: &mut [u8])
    requires { RowRoom layout.marks layout.names (last_row layout.names) work.old }
    ensures { EdgesCleared layout.marks layout.names work.old work.new }
{
    let columns = layout.names + 1;
    let from = layout.marks + (layout.names + 2) * columns;
    clear_between(work, from, from + layout.names * columns);
}

// Gives byte 1 to the pair asked for and all pairs that it leads to, in bytes that are all 0.
pub fn reach(given: &Given, work: &mut [u8], asked: usize)
    requires reach { ToReach given.now work.old }
    requires blank { Blank given.now.layout.marks given.now.layout.names work.old }
    requires asked_le_names { asked ≤ given.now.layout.names }
    ensures { Reached given.now asked work.old work.new }
{
    clear_edges(given.layout, work);
    note(given.layout, work, asked, asked);
    settle_all(given, work);
}
