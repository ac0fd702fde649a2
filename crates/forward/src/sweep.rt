// Passes over all names and rows: what one looks at, and with what it leaves nothing to mark where it finds nothing.
ghost use Rattle.std.specs.Prelude.{suc, ◌≤◌, ◌<◌};
ghost use Rattle.marks.specs.Passes.{Pass, Below};
ghost use Rattle.release.specs.Tables.{filler_at};
ghost use Rattle.marks.specs.Lines.{Spans};
ghost use Rattle.layout.specs.Layouts.{mark_square};
ghost use Rattle.forward.specs.Rules.{Setting, setting_stays, follows_step, Named, NameLost, Edge, Follows, Step, Kept, ByName, ByRole, ByEdge, EdgeCell, Looked, Row};

use crate::consequences::deal;
use crate::kept::{join_below, keep_partners, next_missing, next_role};
use crate::partner::look_at_pair;
use crate::propagation::taking;
use layout::Given;
use marks::Square;
use marks::line::Line;
use marks::order::Order;
use marks::rules::Rules;
use marks::waiting::Waiting;
use release::RoleIndex;

// Marks the name x with all that it is not above by the second release, if it is in the signature. Whether a mark is new. Crate backward has
// a function of this name, which joins another row and marks one column more; what the two share is no more than these few lines. So it is
// with `mark_names`, which both have: a loop of one line, whose call is another.
pub fn look_at_name(given: &Given, work: &mut [u8], x: usize) -> bool
    requires named { Named given.now work.old }
    requires x_lt_names { x < given.now.layout.names }
    ensures { Pass (NameLost given.now) (mark_square given.now.layout) (ByName given.now x) work.old work.new result }
{
    if given.has_name(x) {
        let mut kept = [0u8; Line::LENGTH];
        join_below(given, work, &mut kept, x);
        let marks = given.layout.mark_square();
        return marks.absorb_missing(work, x, &kept);
    }
    false
}

// The edge of x with the role, for each node that x is not marked with and that is not in the line of those that keep a partner: of each the
// search decides. Whether a mark is new.
fn look_at_missing(given: &Given, work: &mut [u8], kept: &[u8], x: usize, role: RoleIndex) -> bool
    requires setting { Setting given.now work.old }
    requires edge { Edge given.now x role.0 }
    requires spans { Spans given.now.layout.names kept.now }
    requires kept { Kept given.now work.old (filler_at given.now.first.table.now x) role.0 kept.now }
    ensures { Pass (Follows given.now) (mark_square given.now.layout) (ByRole given.now x role.0) work.old work.new result }
{
    let marks = given.layout.mark_square();
    let mut changed = false;
    let mut next = 0;
    // the loop writes the memory that it searches, so no iterator can hold it
    while let Some(y) = next_missing(marks, work, x, kept, next) {
        changed |= look_at_pair(given, work, x, role, y);
        next = y + 1;
    }
    changed
}

// Marks the pairs of x that its edge with the role loses. The line settles who keeps a partner; of each node that is neither marked nor in it
// the search decides. A quiet pass has no such node, so the search costs it nothing. Whether a mark is new. It stays a function of its own, so
// that its loop has registers enough.
#[inline(never)]
fn look_at_role(given: &Given, work: &mut [u8], x: usize, role: RoleIndex) -> bool
    requires setting { Setting given.now work.old }
    requires edge { Edge given.now x role.0 }
    ensures { Pass (Follows given.now) (mark_square given.now.layout) (ByRole given.now x role.0) work.old work.new result }
{
    let mut kept = [0u8; Line::LENGTH];
    if keep_partners(given, work, &mut kept, x, role) {
        return false;
    }
    look_at_missing(given, work, &kept, x, role)
}

// The same for each role of the edge of x by which something can be left.
fn look_at_edge(given: &Given, work: &mut [u8], x: usize) -> bool
    requires setting { Setting given.now work.old }
    requires x_lt_names { x < given.now.layout.names }
    ensures { Pass (Follows given.now) (mark_square given.now.layout) (ByEdge given.now x) work.old work.new result }
{
    let mut changed = false;
    let mut next = 0;
    // the loop writes the memory that it searches, so no iterator can hold it
    while let Some(role) = next_role(given, work, x, next) {
        next = role.0 + 1;
        changed |= look_at_role(given, work, x, role);
    }
    changed
}

// What names and edges give, for all names. Whether a mark is new.
fn look_at_names(given: &Given, work: &mut [u8]) -> bool
    requires { Setting given.now work.old }
    ensures { Pass (Step given.now) (mark_square given.now.layout) (Below (Looked given.now) given.now.layout.names) work.old work.new result }
{
    let mut changed = false;
    for x in 0..given.layout.names {
        let name = look_at_name(given, work, x);
        let edge = look_at_edge(given, work, x);
        changed |= name | edge;
    }
    changed
}

// The rules of forward marks, by which a square is closed. What marks by them are functions and no methods here: a method would have as many
// parameters, and its clauses one field more to go through. `Setting` stands in their contracts, as it says of the memory what `given` asks.
#[derive(Clone, Copy, Debug, PartialEq, Eq)]
pub struct LostAbove<'a> {
    pub given: &'a Given<'a>,
}

impl<'a> Rules for LostAbove<'a> {
    ghost marks = { λ r. mark_square r.given.now.layout };

    ghost setting = { λ r. Setting r.given.now };

    ghost allowed = { λ r. Step r.given.now };

    ghost follows = { λ r. Follows r.given.now };

    ghost done = { λ r. Below (Row r.given.now) (suc r.given.now.layout.names) };

    ghost wider = { λ r w x y f. follows_step f };

    ghost stays = { λ r w v grows h. setting_stays grows h };

    fn marks(&self) -> Square {
        self.given.layout.mark_square()
    }

    fn deal(&self, work: &mut [u8], waiting: &mut Waiting, x: usize) {
        deal(self.given, work, waiting, x);
    }

    fn wait_for_new(&self, work: &mut [u8], waiting: &mut Waiting) {
        waiting.wait_all(self.given.layout.names);
    }

    // Over all names, and if these gave nothing, over all rows with those above them.
    fn pass(&self, work: &mut [u8], order: &Order) -> bool {
        if look_at_names(self.given, work) {
            return true;
        }
        taking(self.given).hand_all(work, order)
    }
}
