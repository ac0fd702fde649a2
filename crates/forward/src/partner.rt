// The search for a partner of an edge, for one node, and the mark that it decides on.
ghost use Rattle.std.specs.Prelude.{◌≤◌, ◌<◌};
ghost use Rattle.el.proofs.Tests.{Tells};
ghost use Rattle.release.specs.Tables.{HasRow};
ghost use Rattle.marks.specs.Squares.{Room};
ghost use Rattle.marks.specs.Passes.{Pass};
ghost use Rattle.layout.specs.Searches.{SomeBelow};
ghost use Rattle.layout.specs.Layouts.{second_square, mark_square};
ghost use Rattle.forward.specs.Asking.{Asks, SmallRole};
ghost use Rattle.forward.specs.Rules.{Partner, NextSuccessor, Setting, Edge, Follows, EdgeCell};

use crate::asked::Asked;
use layout::Given;
use release::RoleIndex;
use release::terminology::Terminology;

// The first successor of the name by the role, from the node `from` on. A name has one axiom, so one successor at most.
fn next_successor(second: &Terminology, asked: Asked, name: usize, from: usize) -> Option<usize>
    requires asks { Asks second.now.table.now asked }
    requires row { HasRow name }
    requires small { SmallRole second.now.table.now name }
    ensures { NextSuccessor second.now.table.now asked.role.0 name from result }
{
    match asked.successor(second, name) {
        Some(filler) if from <= filler => Some(filler),
        _ => None,
    }
}

// Whether y has an edge with the role by the second release, to a node that `end` is not marked with. The candidates are the names above
// y by the second release, up to ⊤; of each, its successors by the role are looked at. The first partner ends both loops.
fn has_partner(given: &Given, work: &[u8], end: usize, asked: Asked, y: usize) -> bool
    requires asks { Asks given.now.second.table.now asked }
    requires room { Room (second_square given.now.layout) work.now × Room (mark_square given.now.layout) work.now }
    requires end_le_names { (end ≤ given.now.layout.names) × (y ≤ given.now.layout.names) }
    ensures { Tells result (SomeBelow (Partner given.now work.now end y asked.role.0) given.now.layout.names) }
{
    // in variables of its own, so that a turn reads them from registers
    let second = given.second;
    let above = given.layout.second_square();
    let marks = given.layout.mark_square();
    let mut found = false;
    let mut next = 0;
    // a rule of the project: labelled nested loops, asked for as a form, stand here (docs/DECISIONS.md, Forms)
    'search: while let Some(candidate) = above.next_marked(work, y, next) {
        if above.names <= candidate {
            break;
        }
        next = candidate + 1;
        let mut from = 0;
        while let Some(successor) = next_successor(&second, asked, candidate, from) {
            if !marks.is_marked(work, end, successor) {
                found = true;
                break 'search;
            }
            from = successor + 1;
        }
    }
    found
}

// Marks the pair x, y if the search finds no partner of the edge of x with the role there. Whether the mark is new.
pub fn look_at_pair(given: &Given, work: &mut [u8], x: usize, role: RoleIndex, y: usize) -> bool
    requires setting { Setting given.now work.old }
    requires edge { Edge given.now x role.0 }
    requires y_le_names { y ≤ given.now.layout.names }
    ensures { Pass (Follows given.now) (mark_square given.now.layout) (EdgeCell given.now x role.0 y) work.old work.new result }
{
    let end = given.first.filler(x);
    let asked = Asked::of(&given.second, role);
    if has_partner(given, work, end, asked, y) {
        return false;
    }
    let marks = given.layout.mark_square();
    marks.mark(work, x, y)
}
