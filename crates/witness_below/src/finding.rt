// What is looked for before anything is written.
ghost use Rattle.std.specs.Prelude.{◌≡◌, ◌≤◌, ◌<◌, IfSome};
ghost use Rattle.el.proofs.Tests.{Tells};
ghost use Rattle.witness_below.specs.Cells.{cell_at};
ghost use Rattle.witness_below.specs.Finding.{ToColumn, ToParts, ToName, PartFound, LostName, NameFound, PartnerFound, JoinedColumn};

use crate::cells::{OPEN, UNASKED, cell};
use backward::serving;
use layout::Given;
use release::{ConceptName, Kind, RoleIndex};

// The first conjunct of the column y that is marked with x; else the first that is not asked for with x.
pub fn find_column_part(given: &Given, work: &[u8], x: usize, y: usize) -> Option<usize>
    requires { ToColumn given.now work.now x y }
    ensures { PartFound given.now.second.file.now given.now.second.table.now given.now.layout.names y (λ z. (cell_at given.now.layout work.now x z ≡ 1 → ⊥)) result }
{
    let mut found = None;
    for part in given.second.parts(y) {
        let kept = cell(work, given.layout, x, part);
        if OPEN < kept {
            return Some(part);
        }
        if kept == UNASKED && found.is_none() {
            found = Some(part);
        }
    }
    found
}

// The conjunct of the column y that was asked for last with x, if one was. Only a hint: which conjunct it is is not promised.
pub fn asked_column_part(given: &Given, work: &[u8], x: usize, y: usize) -> Option<usize>
    requires { ToColumn given.now work.now x y }
    ensures { IfSome result (λ z. z ≤ given.now.layout.names) }
{
    let mut found = None;
    for part in given.second.parts(y) {
        if cell(work, given.layout, x, part) == UNASKED {
            return found;
        }
        found = Some(part);
    }
    found
}

// The first conjunct of x whose number with the column y is 0 or 1.
pub fn find_row_part(given: &Given, work: &[u8], x: usize, y: usize) -> Option<usize>
    requires { ToParts given.now work.now x y }
    ensures { PartFound given.now.first.file.now given.now.first.table.now given.now.layout.names x (λ z. cell_at given.now.layout work.now z y ≤ 1) result }
{
    for part in given.first.parts(x) {
        if cell(work, given.layout, part, y) <= OPEN {
            return Some(part);
        }
    }
    None
}

// Whether a name is in the signature, and lies below x by the first release and not below y by the second.
fn is_lost(given: &Given, work: &[u8], x: usize, y: usize, name: usize) -> bool
    requires to_name { ToName given.now work.now x y }
    requires name_lt_names { name < given.now.layout.names }
    ensures { Tells result (LostName given.now work.now x y name) }
{
    given.has_name(name)
        && given.layout.first_square().is_marked(work, name, x)
        && (given.layout.names <= y || !given.layout.second_square().is_marked(work, name, y))
}

// The first name of the signature that lies below x by the first release and not below y by the second.
pub fn find_name(given: &Given, work: &[u8], x: usize, y: usize) -> Option<ConceptName>
    requires { ToName given.now work.now x y }
    ensures { NameFound given.now work.now x y result }
{
    for name in 0..given.layout.names {
        if is_lost(given, work, x, y, name) {
            return Some(ConceptName(name));
        }
    }
    None
}

// A role of the edge of a name, and the column that the filler of the name has to be asked for with by it.
#[derive(Clone, Copy)]
pub struct Partner {
    pub role: RoleIndex,
    pub over: usize,
}

// Of the roles of the edge of x, one by which most is lost below y, with its column: nothing, for a role that does not serve for y; else the filler
// of y. None, where x has no edge, or that filler is ⊤, below which all lies.
pub fn find_partner(given: &Given, x: usize, y: usize) -> Option<Partner>
    requires { x < given.now.layout.names }
    ensures { PartnerFound given.now x y result }
{
    let serving = serving(given, x, y);
    if let Some(role) = given.edges[x].without(serving).next(0) {
        return Some(Partner {
            role,
            over: given.layout.names,
        });
    }
    let role = serving.next(0)?;
    let over = given.second.filler(y);
    if given.layout.names <= over {
        return None;
    }
    Some(Partner { role, over })
}

// Whether y is defined by a conjunction.
pub fn is_joined(given: &Given, y: usize) -> bool
    ensures { Tells result (JoinedColumn given.now y) }
{
    y < given.layout.names && given.second.has_kind(y, Kind::DefinedConjunction)
}
