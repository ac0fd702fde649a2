// One axiom read at a place of the file, with the refusals that it may meet.
ghost use Rattle.std.specs.Prelude.{◌≡◌, ◌≤◌, length, true};
ghost use Rattle.release.specs.Files.{parts_fault, joins, restricts, filler_node};
ghost use Rattle.release.specs.Entries.{role_reading, tail_reading, reading_at, node_number};
ghost use Rattle.release.specs.Kinds.{kind_number};
ghost use Rattle.release.specs.Refusals.{file_refusal, told, answer};
ghost use Rattle.release.specs.Versions.{width};

use crate::kinds::Kind;
use crate::number::Version;
use crate::refusals::FileRefusal;
use crate::{ConceptName, Counts, Release, RoleIndex};

// A place in a file.
#[derive(Clone, Copy, Debug, PartialEq, Eq)]
pub struct Cursor {
    pub at: usize,
}

// An axiom's numbers, as a row of the table holds them: the role and the filler, a node, are 0 for a conjunction. The tail is the place past the
// kind byte.
#[derive(Clone, Copy, Debug, PartialEq, Eq)]
pub struct Entry {
    pub left: ConceptName,
    pub kind: Kind,
    pub role: RoleIndex,
    pub filler: usize,
    pub tail: usize,
}

// A file that is read: its bytes, its version and the counts of its header.
#[derive(Clone, Copy, Debug, PartialEq, Eq)]
pub struct Source<'a> {
    pub file: &'a [u8],
    pub version: Version,
    pub counts: Counts,
}

// The steps of reading stand in the loop that reads axioms: an answer that is handed from one function to the next would go through memory,
// which took a check twice the time.
impl<'a> Source<'a> {
    // The role at `at`.
    #[inline(always)]
    pub(crate) fn read_role(&self, at: usize) -> Result<RoleIndex, FileRefusal>
        ensures { told file_refusal result ≡ role_reading self.now.counts.roles self.now.file.now at }
    {
        if self.file.len() <= at {
            return Err(FileRefusal::EndOfFile);
        }
        let role = RoleIndex(self.file[at]);
        if self.counts.roles <= usize::from(role.0) {
            return Err(FileRefusal::WrongRole);
        }
        Ok(role)
    }

    // Checks `count` rising names from `at` on.
    #[inline(always)]
    fn check_parts(&self, at: usize, count: usize) -> Result<(), FileRefusal>
        requires { at ≤ length self.now.file.now }
        ensures { told file_refusal result ≡ answer 1 (parts_fault (width self.now.version) self.now.counts.names count 0 self.now.file.now at) tt }
    {
        // The place stands beside the count: the file may end within a name, which `chunks_exact` would leave out without a refusal.
        let mut place = at;
        let mut least: usize = 0;
        for _part in 0..count {
            if self.file.len() < place + self.version.width() {
                return Err(FileRefusal::EndOfFile);
            }
            let name = self.version.number(self.file, place);
            if self.counts.names <= name {
                return Err(FileRefusal::WrongName);
            }
            if name < least {
                return Err(FileRefusal::ConjunctsNotRising);
            }
            least = name + 1;
            place += self.version.width();
        }
        Ok(())
    }

    // The tail of a conjunction.
    #[inline(always)]
    fn read_conjunction(
        &self,
        tail: usize,
        left: usize,
        kind: Kind,
    ) -> Result<(Entry, Cursor), FileRefusal>
        requires inside { tail ≤ length self.now.file.now }
        requires kind { joins (kind_number kind) ≡ true }
        ensures { told file_refusal result
            ≡ tail_reading (width self.now.version) self.now.counts.names self.now.counts.roles left kind self.now.file.now tail }
    {
        if self.file.len() <= tail {
            return Err(FileRefusal::EndOfFile);
        }
        let count = usize::from(self.file[tail]);
        if Release::CONJUNCTS < count {
            return Err(FileRefusal::ManyConjuncts);
        }
        self.check_parts(tail + 1, count)?;
        let entry = Entry {
            left: ConceptName(left),
            kind,
            role: RoleIndex(0),
            filler: 0,
            tail,
        };
        let next = Cursor {
            at: tail + (1 + self.version.width() * count),
        };
        Ok((entry, next))
    }

    // The node of a filler's number: ⊤ is n.
    #[inline(always)]
    fn filler_node(&self, filler: usize) -> usize
        ensures { result ≡ node_number self.now.counts.names (filler_node (width self.now.version) filler) }
    {
        if filler == self.version.top() {
            return self.counts.names;
        }
        filler
    }

    // The tail of a restriction.
    #[inline(always)]
    fn read_restriction(
        &self,
        tail: usize,
        left: usize,
        kind: Kind,
    ) -> Result<(Entry, Cursor), FileRefusal>
        requires inside { tail ≤ length self.now.file.now }
        requires kind { restricts (kind_number kind) ≡ true }
        ensures { told file_refusal result
            ≡ tail_reading (width self.now.version) self.now.counts.names self.now.counts.roles left kind self.now.file.now tail }
    {
        let role = self.read_role(tail)?;
        let next = tail + (1 + self.version.width());
        if self.file.len() < next {
            return Err(FileRefusal::EndOfFile);
        }
        let filler = self.version.number(self.file, tail + 1);
        if self.counts.names <= filler && filler != self.version.top() {
            return Err(FileRefusal::WrongName);
        }
        let entry = Entry {
            left: ConceptName(left),
            kind,
            role,
            filler: self.filler_node(filler),
            tail,
        };
        Ok((entry, Cursor { at: next }))
    }

    // The axiom at `at`, whose left name is at least `least`.
    #[inline(always)]
    pub fn read_axiom(&self, at: usize, least: usize) -> Result<(Entry, Cursor), FileRefusal>
        requires { at ≤ length self.now.file.now }
        ensures { told file_refusal result ≡ reading_at (width self.now.version) self.now.counts.names self.now.counts.roles least self.now.file.now at }
    {
        let after = at + self.version.width();
        if self.file.len() < after {
            return Err(FileRefusal::EndOfFile);
        }
        let left = self.version.number(self.file, at);
        if self.counts.names <= left {
            return Err(FileRefusal::WrongName);
        }
        if left < least {
            return Err(FileRefusal::LeftNamesNotRising);
        }
        if self.file.len() <= after {
            return Err(FileRefusal::EndOfFile);
        }
        let kind = Kind::try_from(self.file[after])?;
        match kind {
            Kind::PrimitiveConjunction | Kind::DefinedConjunction => {
                self.read_conjunction(after + 1, left, kind)
            }
            Kind::PrimitiveRestriction | Kind::DefinedRestriction => {
                self.read_restriction(after + 1, left, kind)
            }
        }
    }
}
