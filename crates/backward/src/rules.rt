// The rules by which a pair x, y is marked. What they ask is said in specs/Rules.
ghost use Rattle.std.specs.Prelude.{◌≡◌, true, false, ◌≤◌, ◌<◌};
ghost use Rattle.el.proofs.Tests.{Tells};
ghost use Rattle.release.specs.Tables.{kind_at, count_at, Shaped};
ghost use Rattle.marks.specs.Squares.{Room};
ghost use Rattle.layout.specs.Searches.{SomeBelow, EachBelow};
ghost use Rattle.layout.specs.Layouts.{mark_square};
ghost use Rattle.backward.specs.Rules.{Setting, Rows, PlainColumn, ColumnPart, RowPart, Restricted, Serving, NothingLost, FillerLost, RoleLost, Filling, NoRule, RowLost, Defined};

use layout::Given;
use release::Kind;
use release::roles::RoleSet;

// Whether x is marked with a conjunct of the conjunction y of the second release.
pub fn some_part_lost(given: &Given, work: &[u8], x: usize, y: usize) -> bool
    requires shaped { Shaped given.now.layout.names given.now.second.file.now given.now.second.table.now }
    requires room { Room (mark_square given.now.layout) work.now }
    requires x_le_names { (x ≤ given.now.layout.names) × (y < given.now.layout.names) × (kind_at given.now.second.table.now y ≡ 2) }
    ensures { Tells result (SomeBelow (ColumnPart given.now work.now x y) (count_at given.now.second.file.now given.now.second.table.now y)) }
{
    let marks = given.layout.mark_square();
    given
        .second
        .parts(y)
        .any(|part| marks.is_marked(work, x, part))
}

// Whether all conjuncts of the conjunction x of the first release are marked with y.
fn all_parts_lost(given: &Given, work: &[u8], x: usize, y: usize) -> bool
    requires shaped { Shaped given.now.layout.names given.now.first.file.now given.now.first.table.now }
    requires room { Room (mark_square given.now.layout) work.now }
    requires x_lt_names { (x < given.now.layout.names) × (y ≤ given.now.layout.names) × (kind_at given.now.first.table.now x ≡ 2) }
    ensures { Tells result (EachBelow (RowPart given.now work.now x y) (count_at given.now.first.file.now given.now.first.table.now x)) }
{
    let marks = given.layout.mark_square();
    given
        .first
        .parts(x)
        .all(|part| marks.is_marked(work, part, y))
}

// Whether y is defined by a restriction.
fn is_restriction(given: &Given, y: usize) -> bool
    ensures { Tells result (Restricted given.now.second.table.now given.now.layout.names y) }
{
    y < given.layout.names && given.second.has_kind(y, Kind::DefinedRestriction)
}

// The roles that x has an edge with and that serve for y: none where y is not defined by a restriction.
pub fn serving(given: &Given, x: usize, y: usize) -> RoleSet
    requires { x < given.now.layout.names }
    ensures { Serving given.now x y result.0 }
{
    if is_restriction(given, y) {
        return given.edges[x].meet(given.second.under(given.second.role(y)));
    }
    RoleSet::NONE
}

// Whether the filler of x is marked with nothing, and x has an edge with a role outside the set.
fn nothing_lost(given: &Given, work: &[u8], x: usize, serving: RoleSet) -> bool
    requires room { Room (mark_square given.now.layout) work.now }
    requires x_lt_names { (x < given.now.layout.names) × (kind_at given.now.first.table.now x ≡ 4) }
    ensures { Tells result (NothingLost given.now work.now x serving.0) }
{
    let marks = given.layout.mark_square();
    !given.edges[x].without(serving).is_empty()
        && marks.is_marked(work, given.first.filler(x), given.layout.names)
}

// Whether the filler of x is marked with that of y, and the set has a role. A filler ⊤ of y is above all.
fn filler_lost(given: &Given, work: &[u8], x: usize, y: usize, serving: RoleSet) -> bool
    requires room { Room (mark_square given.now.layout) work.now }
    requires x_lt_names { (x < given.now.layout.names) × (kind_at given.now.first.table.now x ≡ 4) }
    requires serving { Serving given.now x y serving.0 }
    ensures { Tells result (FillerLost given.now work.now x y serving.0) }
{
    if serving.is_empty() {
        return false;
    }
    let marks = given.layout.mark_square();
    let over = given.second.filler(y);
    over < given.layout.names && marks.is_marked(work, given.first.filler(x), over)
}

// Whether the filler of x, which is defined by a restriction, is marked with what has to lie above it for y, by a role that x has an edge with:
// nothing, for a role that does not serve for y; the filler of y, for one that does.
fn role_lost(given: &Given, work: &[u8], x: usize, y: usize) -> bool
    requires room { Room (mark_square given.now.layout) work.now }
    requires x_lt_names { (x < given.now.layout.names) × (kind_at given.now.first.table.now x ≡ 4) }
    ensures { Tells result (RoleLost given.now work.now x y) }
{
    let roles = serving(given, x, y);
    if nothing_lost(given, work, x, roles) {
        return true;
    }
    filler_lost(given, work, x, y, roles)
}

// Whether the definition of x allows the mark x, y, where y is not defined by a conjunction.
pub fn column_lost(given: &Given, work: &[u8], x: usize, y: usize) -> bool
    requires rows { Rows given.now work.now }
    requires x_le_names { (x ≤ given.now.layout.names) × (y ≤ given.now.layout.names) }
    ensures { Tells result (RowLost given.now work.now x y) }
{
    if given.layout.names <= x {
        return true;
    }
    match given.first.kind(x) {
        Some(Kind::DefinedConjunction) => all_parts_lost(given, work, x, y),
        Some(Kind::DefinedRestriction) => role_lost(given, work, x, y),
        _ => false,
    }
}

// Whether the definitions of x and y allow the mark x, y.
pub fn defined_lost(given: &Given, work: &[u8], x: usize, y: usize) -> bool
    requires setting { Setting given.now work.now }
    requires x_le_names { (x ≤ given.now.layout.names) × (y ≤ given.now.layout.names) }
    ensures { Tells result (Defined given.now work.now x y) }
{
    if y < given.layout.names && given.second.has_kind(y, Kind::DefinedConjunction) {
        return some_part_lost(given, work, x, y);
    }
    column_lost(given, work, x, y)
}

// Whether x is defined by a restriction with this filler and has an edge. Where it says no, nothing is said.
pub fn is_filling(given: &Given, x: usize, filler: usize) -> bool
    ensures { result ≡ true → Filling given.now x filler }
{
    x < given.layout.names
        && given.first.has_kind(x, Kind::DefinedRestriction)
        && given.first.filler(x) == filler
        && !given.edges[x].is_empty()
}

// Whether the definition of x may allow a mark. Where it says yes, nothing is said.
pub fn may_be_lost(given: &Given, x: usize) -> bool
    ensures { result ≡ false → NoRule given.now x }
{
    if given.layout.names <= x {
        return true;
    }
    match given.first.kind(x) {
        Some(Kind::DefinedConjunction) => true,
        Some(Kind::DefinedRestriction) => !given.edges[x].is_empty(),
        _ => false,
    }
}

// Whether y is not defined by a conjunction.
pub fn is_plain(given: &Given, y: usize) -> bool
    ensures { Tells result (PlainColumn given.now y) }
{
    given.layout.names <= y || !given.second.has_kind(y, Kind::DefinedConjunction)
}
