// What is found of a signature before marks are put: with which of its roles each name of the first release has an edge. The functions that
// put marks are handed that for each name, and none of the signature's roles.
ghost use Rattle.std.specs.Prelude.{◌≡◌, true, ◌≤◌, ◌<◌, length};
ghost use Rattle.release.specs.Files.{most_roles};
ghost use Rattle.release.specs.Tables.{HasRow};
ghost use Rattle.layout.specs.Tables.{Rowed};
ghost use Rattle.layout.specs.Findings.{lies, EachAlone, ChosenRoles, RolesFound, Lowest, RolesStand, EachStands, EdgesOf, Found};

use release::roles::RoleSet;
use release::terminology::Terminology;
use release::{Release, RoleIndex};
use signature::LentSignature;

// Which roles are found of the role of an axiom: those above it, for which it serves, as forward marks ask, or those below it, which serve
// for it, as backward marks ask.
#[derive(Clone, Copy, Debug, PartialEq, Eq)]
pub enum Position {
    Above,
    Below,
}

// Whether a role lies so to the role `own` of an axiom.
fn lies(position: Position, first: &Terminology, own: RoleIndex, role: RoleIndex) -> bool
    ensures { result ≡ lies position first.now.table.now own.0 role.0 }
{
    match position {
        Position::Above => first.serves(own, role),
        Position::Below => first.serves(role, own),
    }
}

// The roles of the signature as a set: they are looked at once, and not again for each role of an axiom.
fn chosen_roles(signature: &LentSignature) -> RoleSet
    requires few { signature.now.roles ≤ most_roles }
    ensures { ChosenRoles signature.now.bytes.now signature.now.names signature.now.roles result.0 }
{
    let mut chosen = RoleSet::NONE;
    for number in 0..signature.roles {
        let role = RoleIndex(number as u8);
        if signature.has_role(role) {
            chosen = chosen.with(role);
        }
    }
    chosen
}

// Whether by the release no role lies under another, as without pairs.
fn are_alone(first: &Terminology) -> bool
    ensures { result ≡ true → EachAlone first.now.table.now }
{
    for number in 0..Release::ROLES {
        let role = RoleIndex(number as u8);
        let others = first.under(role).without(RoleSet::NONE.with(role));
        if !others.is_empty() {
            return false;
        }
    }
    true
}

// Those of some roles that lie so to a role.
fn find_among(among: RoleSet, first: &Terminology, position: Position, own: RoleIndex) -> RoleSet
    ensures { RolesFound position first.now.table.now among.0 own.0 result.0 }
{
    let mut found = RoleSet::NONE;
    let mut next = 0;
    while let Some(role) = among.next(next) {
        if lies(position, first, own, role) {
            found = found.with(role);
        }
        next = role.0 + 1;
    }
    found
}

// Those of the chosen roles. Where no role lies under another, only the role itself has to be looked at.
fn find_roles(
    chosen: RoleSet,
    alone: bool,
    first: &Terminology,
    position: Position,
    own: RoleIndex,
) -> RoleSet
    requires alone { alone ≡ true → EachAlone first.now.table.now }
    requires small { own.0 < most_roles }
    ensures { RolesFound position first.now.table.now chosen.0 own.0 result.0 }
{
    if alone {
        let itself = RoleSet::NONE.with(own);
        return find_among(chosen.meet(itself), first, position, own);
    }
    find_among(chosen, first, position, own)
}

// The lowest of the roles by the second release: a role for which another one serves is left out, but for one of those that serve for each
// other. What has no partner with a role has none with the roles that serve for it, so that an edge is lost by a role left out only where it
// is lost by one that stays; and a pass looks at an edge once for each of its roles.
fn lowest(second: &Terminology, roles: RoleSet) -> RoleSet
    ensures { Lowest second.now.table.now roles.0 result.0 }
{
    let mut kept = roles;
    let mut next = 0;
    while let Some(role) = roles.next(next) {
        next = role.0 + 1;
        let others = kept.without(RoleSet::NONE.with(role));
        if others.meet(second.under(role)).is_empty() {
            continue;
        }
        kept = others;
    }
    kept
}

// Those of the roles that stand for all. Backward marks ask all those below at once, so none of these is left out.
fn find_standing(
    chosen: RoleSet,
    alone: bool,
    first: &Terminology,
    second: &Terminology,
    position: Position,
    own: RoleIndex,
) -> RoleSet
    requires alone { alone ≡ true → EachAlone first.now.table.now }
    requires small { own.0 < most_roles }
    ensures { RolesStand position first.now.table.now second.now.table.now chosen.0 own.0 result.0 }
{
    let roles = find_roles(chosen, alone, first, position, own);
    match position {
        Position::Above => lowest(second, roles),
        Position::Below => roles,
    }
}

// They are found once for each role, and not for each name.
fn find_each_role(
    signature: &LentSignature,
    first: &Terminology,
    second: &Terminology,
    position: Position,
) -> [RoleSet; Release::ROLES]
    requires few { signature.now.roles ≤ most_roles }
    ensures { EachStands
        position signature.now.bytes.now first.now.table.now second.now.table.now signature.now.names signature.now.roles result }
{
    let chosen = chosen_roles(signature);
    let alone = are_alone(first);
    let mut sets = [RoleSet::NONE; Release::ROLES];
    for own in 0..Release::ROLES {
        sets[own] = find_standing(chosen, alone, first, second, position, RoleIndex(own as u8));
    }
    sets
}

// The roles that the name x has an edge with: those found of its role, where its axiom is a restriction.
fn edges_of(first: &Terminology, sets: &[RoleSet; Release::ROLES], x: usize) -> RoleSet
    requires { HasRow x }
    ensures { EdgesOf first.now.table.now sets.now x result.0 }
{
    let own = usize::from(first.role(x).0);
    if first.is_restriction(x) && own < Release::ROLES {
        return sets[own];
    }
    RoleSet::NONE
}

// Writes these of each name.
pub fn find_edges(
    signature: &LentSignature,
    first: &Terminology,
    second: &Terminology,
    position: Position,
    edges: &mut [RoleSet],
)
    requires rowed { Rowed signature.now.names first.now.table.now }
    requires names_in_bounds { signature.now.names ≤ length edges.old }
    requires few { signature.now.roles ≤ most_roles }
    ensures { Found
        position signature.now.bytes.now first.now.table.now second.now.table.now signature.now.names signature.now.roles edges.new }
{
    let sets = find_each_role(signature, first, second, position);
    for x in 0..signature.names {
        edges[x] = edges_of(first, &sets, x);
    }
}
