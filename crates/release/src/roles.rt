// Roles: sets of them, and which lie under which. A release has few roles, so a set is a word with a bit for each.
ghost use Rattle.std.specs.Prelude.{◌≡◌, List, ◌∷◌, ◌<◌};
ghost use Rattle.el.proofs.Tests.{Tells};
ghost use Rattle.el.specs.Axioms.{RolePair as Pair};
ghost use Rattle.release.specs.Files.{precedes, after, most_roles};
ghost use Rattle.release.specs.Roles.{HasRole, With, Joined, Met, Without, NoRole, NextRole, serves_by, Serving, RolesOf, pair_of, Listable};

use crate::{Release, RoleIndex};

// A set of roles: bit r says whether it has the role r.
#[derive(Clone, Copy, Debug, PartialEq, Eq)]
pub struct RoleSet(pub u32);

impl RoleSet {
    pub const NONE: RoleSet = RoleSet(0);

    // Whether the set has a role: none from 32 on. The bit is looked at first, which needs no branch.
    pub fn has(self, role: RoleIndex) -> bool
        ensures { Tells result (HasRole self.0 role.0) }
    {
        (self.0 >> (role.0 % 32)) % 2 == 1 && role.0 < 32
    }

    // Whether the set has a role that has a bit: as an accepted release's roles have one, this spares loops over its names the other question.
    pub fn has_small(self, role: RoleIndex) -> bool
        requires { role.0 < most_roles }
        ensures { Tells result (HasRole self.0 role.0) }
    {
        (self.0 >> role.0) % 2 == 1
    }

    // The set and a role; the set where there is no bit for the role.
    pub fn with(self, role: RoleIndex) -> RoleSet
        ensures { With self.0 role.0 result.0 }
    {
        if role.0 < 32 {
            return RoleSet(self.0 | (1 << role.0));
        }
        self
    }

    // The roles of either set.
    pub fn join(self, other: RoleSet) -> RoleSet
        ensures { Joined self.0 other.0 result.0 }
    {
        RoleSet(self.0 | other.0)
    }

    // The roles of both sets.
    pub fn meet(self, other: RoleSet) -> RoleSet
        ensures { Met self.0 other.0 result.0 }
    {
        RoleSet(self.0 & other.0)
    }

    // The roles of the set that the other has not.
    pub fn without(self, other: RoleSet) -> RoleSet
        ensures { Without self.0 other.0 result.0 }
    {
        RoleSet((self.0 | other.0) ^ other.0)
    }

    pub fn is_empty(self) -> bool
        ensures { Tells result (NoRole self.0) }
    {
        self.0 == 0
    }

    // The first role of the set from `from` on.
    pub fn next(self, from: u8) -> Option<RoleIndex>
        ensures { NextRole self.0 from result }
    {
        if 32 <= from {
            return None;
        }
        let rest = self.0 >> from;
        if rest == 0 {
            return None;
        }
        // no `From` leads from u32 to u8
        Some(RoleIndex(from + rest.trailing_zeros() as u8))
    }
}

// A role, and one that it lies under.
#[derive(Clone, Copy, Debug, PartialEq, Eq)]
pub struct RolePair {
    pub lower: RoleIndex,
    pub upper: RoleIndex,
}

impl RolePair {
    // Pairs rise by the lower role, then by the upper one. This is the least that there can be.
    pub const LEAST: RolePair = RolePair {
        lower: RoleIndex(0),
        upper: RoleIndex(0),
    };

    // Whether the pair stands before another.
    pub fn precedes(self, other: RolePair) -> bool
        ensures { result ≡ precedes (pair_of self) (pair_of other) }
    {
        self.lower.0 < other.lower.0
            || self.lower.0 == other.lower.0 && self.upper.0 < other.upper.0
    }

    // The least that may follow the pair.
    pub fn after(self) -> RolePair
        requires { self.upper.0 < 255 }
        ensures { pair_of result ≡ after (pair_of self) }
    {
        RolePair {
            lower: self.lower,
            upper: RoleIndex(self.upper.0 + 1),
        }
    }
}

// For each role the roles that lie under it.
#[derive(Clone, Copy, Debug, PartialEq, Eq)]
pub struct RoleTable(pub [RoleSet; Release::ROLES]);

impl RoleTable {
    // No role lies under any, before a release is read.
    pub const NONE: RoleTable = RoleTable([RoleSet::NONE; Release::ROLES]);

    // Without pairs a role lies under itself alone.
    pub const OWN: RoleTable = RoleTable([
        RoleSet(0x1),
        RoleSet(0x2),
        RoleSet(0x4),
        RoleSet(0x8),
        RoleSet(0x10),
        RoleSet(0x20),
        RoleSet(0x40),
        RoleSet(0x80),
        RoleSet(0x100),
        RoleSet(0x200),
        RoleSet(0x400),
        RoleSet(0x800),
        RoleSet(0x1000),
        RoleSet(0x2000),
        RoleSet(0x4000),
        RoleSet(0x8000),
        RoleSet(0x10000),
        RoleSet(0x20000),
        RoleSet(0x40000),
        RoleSet(0x80000),
        RoleSet(0x100000),
        RoleSet(0x200000),
        RoleSet(0x400000),
        RoleSet(0x800000),
        RoleSet(0x1000000),
        RoleSet(0x2000000),
        RoleSet(0x4000000),
        RoleSet(0x8000000),
        RoleSet(0x10000000),
        RoleSet(0x20000000),
        RoleSet(0x40000000),
        RoleSet(0x80000000),
    ]);

    // Whether a role serves where another is asked for: it lies under that one. A role for which the table has no entry serves for itself alone.
    pub fn serves(&self, role: RoleIndex, asked: RoleIndex) -> bool
        ensures { result ≡ serves_by self.now role.0 asked.0 }
    {
        if usize::from(asked.0) < Release::ROLES {
            return self.0[usize::from(asked.0)].has(role);
        }
        role == asked
    }

    // The roles that serve where this one is asked for, of those that have a bit: all of them, where this one has a bit.
    pub fn under(&self, role: RoleIndex) -> RoleSet
        ensures { Serving self.now role.0 result.0 }
    {
        if usize::from(role.0) < Release::ROLES {
            return self.0[usize::from(role.0)];
        }
        RoleSet::NONE
    }

    // Takes in a pair: under each role that the upper one lies under, all that lies under the lower one. A chain of pairs that leads through the
    // new one needs it once only, so the table stays closed under chains.
    pub fn take_in(&mut self, pair: RolePair)
        requires { Listable pair }
        ensures { (pairs : List Pair) → RolesOf pairs self.old → RolesOf (pair_of pair ∷ pairs) self.new }
    {
        let under = self.0[usize::from(pair.lower.0)];
        for asked in 0..Release::ROLES {
            let entry = self.0[asked];
            if entry.has(pair.upper) {
                self.0[asked] = entry.join(under);
            }
        }
    }
}
