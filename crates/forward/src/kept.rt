// The nodes that keep a partner of an edge, as a line, and the next node that it leaves open.
ghost use Rattle.std.specs.Prelude.{◌≡◌, true, ◌≤◌, ◌<◌};
ghost use Rattle.el.proofs.Tests.{Tells};
ghost use Rattle.release.specs.Files.{most_roles};
ghost use Rattle.release.specs.Tables.{filler_at};
ghost use Rattle.marks.specs.Squares.{Small, Room, Area};
ghost use Rattle.marks.specs.Lines.{Spans, Empty, Full};
ghost use Rattle.layout.specs.Tables.{Rowed};
ghost use Rattle.layout.specs.Layouts.{second_square, below_square, mark_square};
ghost use Rattle.forward.specs.Asking.{Asks};
ghost use Rattle.forward.specs.Rules.{Beneath, JoinedBelow, Serves, Partnered, Kept, Setting, Edge, ByRole, RowFull, NextOpen, NextMissing};

use crate::asked::Asked;
use crate::hints::ROLES;
use layout::{Given, Layout};
use marks::line::Line;
use marks::{Square, hints, line};
use release::RoleIndex;
use release::terminology::Terminology;

// Whether the name is a restriction of the second release with a role that serves, to a node that `end` is not marked with. The role is asked
// last, since most names have failed before. The role and the end of an edge are two parameters here and in partner: a struct of the two would be
// made of x's edge in two places, to be taken apart at once in each of the three functions that it is handed to.
fn serves(
    second: &Terminology,
    marks: Square,
    work: &[u8],
    end: usize,
    asked: Asked,
    name: usize,
) -> bool
    requires asks { Asks second.now.table.now asked }
    requires rowed { Rowed marks.names second.now.table.now }
    requires room { Room marks work.now }
    requires end_le_names { (end ≤ marks.names) × (name < marks.names) }
    ensures { Tells result (Serves second.now.table.now marks work.now end asked.role.0 name) }
{
    if !second.is_restriction(name) || marks.is_marked(work, end, second.filler(name)) {
        return false;
    }
    asked.serves(second, name)
}

// The inclusions of the second release, turned: row c has what lies below the name c. They lie behind the others, where it was noted what
// was seen of these, which is asked for no more.
fn below(layout: Layout) -> Square
    requires { Small (second_square layout) }
    ensures { result ≡ below_square layout }
{
    layout.second_square().behind(hints::SEEN)
}

// Adds to the line what lies below the name by the second release.
pub fn join_below(given: &Given, work: &[u8], line: &mut [u8], name: usize)
    requires beneath { Beneath given.now.layout work.now }
    requires spans { Spans given.now.layout.names line.old }
    requires name_lt_names { name < given.now.layout.names }
    ensures { JoinedBelow given.now.layout work.now name line.old line.new }
{
    below(given.layout).join(work, name, line);
}

// Adds all nodes that have an edge with the role by the second release, to a node that `end` is not marked with. It stands in its callers' code,
// as do the next three, where the line is known to be apart from the work memory.
#[inline(always)]
fn keep_of_any(given: &Given, work: &[u8], kept: &mut [u8], end: usize, asked: Asked)
    requires asks { Asks given.now.second.table.now asked }
    requires room { Room (mark_square given.now.layout) work.now × Beneath given.now.layout work.now }
    requires spans { Spans given.now.layout.names kept.old × Empty kept.old }
    requires end_le_names { end ≤ given.now.layout.names }
    ensures { Kept given.now work.now end asked.role.0 kept.new }
{
    // in variables of its own, so that a turn reads them from registers; so too the next one
    let second = given.second;
    let marks = given.layout.mark_square();
    let below = below(given.layout);
    for name in 0..marks.names {
        if !serves(&second, marks, work, end, asked, name) {
            continue;
        }
        below.join(work, name, kept);
    }
}

// The same in less time where there are several roles: most names have another one, so that is asked before all else.
#[inline(always)]
fn keep_of_role(given: &Given, work: &[u8], kept: &mut [u8], end: usize, asked: Asked)
    requires asks { Asks given.now.second.table.now asked }
    requires room { Room (mark_square given.now.layout) work.now × Beneath given.now.layout work.now }
    requires spans { Spans given.now.layout.names kept.old × Empty kept.old }
    requires end_le_names { end ≤ given.now.layout.names }
    ensures { Kept given.now work.now end asked.role.0 kept.new }
{
    let second = given.second;
    let marks = given.layout.mark_square();
    let below = below(given.layout);
    for name in 0..marks.names {
        if !asked.may_serve(&second, name) {
            continue;
        }
        if !serves(&second, marks, work, end, asked, name) {
            continue;
        }
        below.join(work, name, kept);
    }
}

// The same by whichever is quicker.
#[inline(always)]
fn keep(given: &Given, work: &[u8], kept: &mut [u8], end: usize, asked: Asked)
    requires asks { Asks given.now.second.table.now asked }
    requires room { Room (mark_square given.now.layout) work.now × Beneath given.now.layout work.now }
    requires spans { Spans given.now.layout.names kept.old × Empty kept.old }
    requires end_le_names { end ≤ given.now.layout.names }
    ensures { Kept given.now work.now end asked.role.0 kept.new }
{
    if 1 < given.layout.roles {
        keep_of_role(given, work, kept, end, asked);
    } else {
        keep_of_any(given, work, kept, end, asked);
    }
}

// The line of the edge of x with the role: all nodes that have a partner of it. Where it answers yes, row x is marked with all others; a no
// says nothing.
#[inline(always)]
pub fn keep_partners(given: &Given, work: &[u8], kept: &mut [u8], x: usize, role: RoleIndex) -> bool
    requires room { Room (mark_square given.now.layout) work.now × Beneath given.now.layout work.now }
    requires spans { Spans given.now.layout.names kept.old × Empty kept.old }
    requires x_lt_names { (x < given.now.layout.names) × (filler_at given.now.first.table.now x ≤ given.now.layout.names) }
    requires role { role.0 < most_roles }
    ensures { Kept
        given.now work.now (filler_at given.now.first.table.now x) role.0 kept.new
        × (result ≡ true → Full (mark_square given.now.layout) kept.new x work.now) }
{
    let end = given.first.filler(x);
    keep(given, work, kept, end, Asked::of(&given.second, role));
    let marks = given.layout.mark_square();
    marks.seems_full(work, x, kept)
}

// Adds what lies below those restrictions that were noted with a role, serve, and lead to a node that `end` is not marked with.
fn keep_by_role(given: &Given, work: &[u8], kept: &mut [u8], end: usize, asked: Asked, row: usize)
    requires asks { Asks given.now.second.table.now asked }
    requires room { Area (mark_square given.now.layout) work.now × Beneath given.now.layout work.now }
    requires spans { Spans given.now.layout.names kept.old }
    requires partnered { Partnered given.now work.now end asked.role.0 kept.old }
    requires end_le_names { (end ≤ given.now.layout.names) × (row ≤ given.now.layout.names) }
    ensures { Partnered given.now work.now end asked.role.0 kept.new }
{
    let second = given.second;
    let marks = given.layout.mark_square();
    let below = below(given.layout);
    for name in marks.hinted(work, ROLES, row) {
        if name < marks.names && serves(&second, marks, work, end, asked, name) {
            below.join(work, name, kept);
        }
    }
}

// The same for each role that serves.
fn keep_noted(given: &Given, work: &[u8], kept: &mut [u8], end: usize, asked: Asked)
    requires asks { Asks given.now.second.table.now asked }
    requires room { Area (mark_square given.now.layout) work.now × Beneath given.now.layout work.now }
    requires spans { Spans given.now.layout.names kept.old }
    requires partnered { Partnered given.now work.now end asked.role.0 kept.old }
    requires end_le_names { end ≤ given.now.layout.names }
    ensures { Partnered given.now work.now end asked.role.0 kept.new }
{
    let mut next = 0;
    while let Some(role) = asked.serving.next(next) {
        next = role.0 + 1;
        let row = usize::from(role.0);
        if row <= given.layout.names {
            keep_by_role(given, work, kept, end, asked, row);
        }
    }
}

// Whether each node that has no partner of the edge of x with the role is marked in row x, as far as the noted restrictions tell: a no says
// nothing.
fn seems_kept(given: &Given, work: &[u8], x: usize, role: RoleIndex) -> bool
    requires setting { Setting given.now work.now }
    requires edge { Edge given.now x role.0 }
    ensures { result ≡ true → ByRole given.now x role.0 work.now }
{
    let end = given.first.filler(x);
    let mut kept = [0u8; Line::LENGTH];
    keep_noted(given, work, &mut kept, end, Asked::of(&given.second, role));
    let marks = given.layout.mark_square();
    marks.seems_full(work, x, &kept)
}

// The first role of the edge of x from `from` on by which, as far as the noted restrictions tell, something can be left to mark. It stays a
// function of its own, since most edges have one role, for which it is not called.
#[inline(never)]
fn next_open(given: &Given, work: &[u8], x: usize, from: u8) -> Option<RoleIndex>
    requires setting { Setting given.now work.now }
    requires x_lt_names { x < given.now.layout.names }
    ensures { NextOpen given.now work.now x from result }
{
    let roles = given.edges[x];
    let mut next = from;
    while let Some(role) = roles.next(next) {
        if !seems_kept(given, work, x, role) {
            return Some(role);
        }
        next = role.0 + 1;
    }
    None
}

// Whether row x is marked with all nodes: then its edge can lose no more, by whichever of its roles.
fn is_full(marks: Square, work: &[u8], x: usize) -> bool
    requires room { Room marks work.now }
    requires x_le_names { x ≤ marks.names }
    ensures { result ≡ true → RowFull marks x work.now }
{
    marks.is_marked(work, x, x) && marks.next_unmarked(work, x, 0).is_none()
}

// The first role of the edge of x from `from` on by which something can be left to mark: none where the row is full. An edge may have as many roles
// as there are, and a release few restrictions with each; so for those after the first the noted restrictions are looked at, before all names are.
pub fn next_role(given: &Given, work: &[u8], x: usize, from: u8) -> Option<RoleIndex>
    requires setting { Setting given.now work.now }
    requires x_lt_names { x < given.now.layout.names }
    ensures { NextOpen given.now work.now x from result }
{
    let role = given.edges[x].next(from)?;
    if is_full(given.layout.mark_square(), work, x) {
        return None;
    }
    if from == 0 {
        return Some(role);
    }
    next_open(given, work, x, role.0)
}

// The first node from `from` on that x is not marked with and that is not in the line.
pub fn next_missing(marks: Square, work: &[u8], x: usize, kept: &[u8], from: usize) -> Option<usize>
    requires room { Room marks work.now }
    requires x_le_names { x ≤ marks.names }
    requires spans { Spans marks.names kept.now }
    ensures { NextMissing marks work.now x kept.now from result }
{
    let mut next = from;
    // no plainer as an iterator over unmarked columns: a struct, an impl and their clauses, for this one loop
    while let Some(y) = marks.next_unmarked(work, x, next) {
        if !line::has(kept, y) {
            return Some(y);
        }
        next = y + 1;
    }
    None
}
