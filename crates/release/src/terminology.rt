// A terminology: an accepted file with its table by name.
ghost use Rattle.std.specs.Prelude.{◌≡◌, ◌==◌};
ghost use Rattle.release.specs.Files.{joins, restricts};
ghost use Rattle.release.specs.Kinds.{kind_number, numbered};
ghost use Rattle.release.specs.Parts.{HasParts, PartsOf};
ghost use Rattle.release.specs.Tables.{kind_at, role_at, filler_at, tail_at, count_at, part_at, serves_at, ServingAt, SuccessorOf, HasRow, HasCount, HasPart};

use crate::RoleIndex;
use crate::kinds::Kind;
use crate::number::Version;
use crate::parts::Parts;
use crate::roles::RoleSet;
use crate::table::Table;

// A file beside its table. That a name has a row (`HasRow`) is asked in each contract, name by name: the names come from loops and from the
// file.
#[derive(Clone, Copy, Debug, PartialEq, Eq)]
pub struct Terminology<'a> {
    pub file: &'a [u8],
    pub table: &'a Table,
}

impl<'a> Terminology<'a> {
    // The kind of a name's axiom, if the name has one.
    pub fn kind(&self, name: usize) -> Option<Kind>
        requires { HasRow name }
        ensures { numbered result ≡ kind_at self.now.table.now name }
    {
        self.table.rows[name].kind
    }

    pub fn has_kind(&self, name: usize, kind: Kind) -> bool
        requires { HasRow name }
        ensures { result ≡ (kind_at self.now.table.now name == kind_number kind) }
    {
        self.kind(name) == Some(kind)
    }

    // Whether a name's axiom is a conjunction B1 ⊓ .. ⊓ Bk.
    pub fn is_conjunction(&self, name: usize) -> bool
        requires { HasRow name }
        ensures { result ≡ joins (kind_at self.now.table.now name) }
    {
        self.kind(name).is_some_and(Kind::is_conjunction)
    }

    // Whether a name's axiom is a restriction ∃r.B.
    pub fn is_restriction(&self, name: usize) -> bool
        requires { HasRow name }
        ensures { result ≡ restricts (kind_at self.now.table.now name) }
    {
        self.kind(name).is_some_and(Kind::is_restriction)
    }

    pub fn role(&self, name: usize) -> RoleIndex
        requires { HasRow name }
        ensures { result.0 ≡ role_at self.now.table.now name }
    {
        self.table.rows[name].role
    }

    // Whether a role serves where another is asked for.
    pub fn serves(&self, role: RoleIndex, asked: RoleIndex) -> bool
        ensures { result ≡ serves_at self.now.table.now role.0 asked.0 }
    {
        self.table.roles.serves(role, asked)
    }

    // The roles that serve where this one is asked for: taken once before a loop, it spares each turn the look into the table of roles.
    pub fn under(&self, role: RoleIndex) -> RoleSet
        ensures { ServingAt self.now.table.now role.0 result.0 }
    {
        self.table.roles.under(role)
    }

    // The filler as a node: ⊤ is n.
    pub fn filler(&self, name: usize) -> usize
        requires { HasRow name }
        ensures { result ≡ filler_at self.now.table.now name }
    {
        usize::from(self.table.rows[name].filler)
    }

    // The filler of a name's axiom where that is a restriction with a role that serves. The role is looked at first, since most names have
    // another.
    pub fn successor(&self, name: usize, role: RoleIndex) -> Option<usize>
        requires { HasRow name }
        ensures { SuccessorOf self.now.table.now name role.0 result }
    {
        if self.serves(self.role(name), role) && self.is_restriction(name) {
            return Some(self.filler(name));
        }
        None
    }

    // The place of the tail in the file.
    pub fn tail(&self, name: usize) -> usize
        requires { HasRow name }
        ensures { result ≡ tail_at self.now.table.now name }
    {
        usize::from(self.table.rows[name].tail)
    }

    // The number of conjuncts of a conjunction.
    pub fn count(&self, name: usize) -> usize
        requires { HasCount self.now.file.now self.now.table.now name }
        ensures { result ≡ count_at self.now.file.now self.now.table.now name }
    {
        usize::from(self.file[self.tail(name)])
    }

    // A conjunct of a conjunction: it stands `index` names after the byte of their count. No code of the library calls it, since `parts` gives
    // the conjuncts one after the other; it is kept as it is public.
    pub fn part(&self, name: usize, index: usize) -> usize
        requires { HasPart self.now.file.now self.now.table.now name index }
        ensures { result ≡ part_at self.now.file.now self.now.table.now name index }
    {
        let version = Version::of(self.file);
        version.number(self.file, self.tail(name) + 1 + version.width() * index)
    }

    // The conjuncts of a conjunction, one after the other: the first of them stands behind the byte of their count.
    pub fn parts(&self, name: usize) -> Parts<'a>
        requires { HasParts self.now.file.now self.now.table.now name }
        ensures { PartsOf self.now.file.now self.now.table.now name 0 result }
    {
        Parts {
            file: self.file,
            version: Version::of(self.file),
            first: self.tail(name) + 1,
            count: self.count(name),
            next: 0,
        }
    }
}
