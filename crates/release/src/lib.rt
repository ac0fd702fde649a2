// The release file: read, checked and shown.
#![tactic(auto)]

ghost use Rattle.std.specs.Prelude.{◌≡◌};
ghost use Rattle.release.specs.Readings.{checked};
ghost use Rattle.release.specs.Refusals.{file_refusal, told};
ghost use Rattle.release.specs.Tables.{Blank, ReleaseRead};

pub use crate::axiom::Source;
use crate::conjuncts::some_part_defined;
use crate::header::read_header;
pub use crate::kinds::Kind;
use crate::pairs::read_pairs;
pub use crate::refusals::{FileRefusal, Refusal};
use crate::table::{Table, read_axioms};
use crate::terminology::Terminology;

mod axiom;
mod conjuncts;
pub mod header;
mod kinds;
pub mod number;
mod pairs;
pub mod parts;
mod refusals;
pub mod roles;
pub mod show;
pub mod table;
pub mod terminology;

// A concept name's number and a role name's, as a caller passes them, so any number: two types, so that neither can be passed for the other.
#[derive(Clone, Copy, Debug, PartialEq, Eq)]
pub struct ConceptName(pub usize);

#[derive(Clone, Copy, Debug, PartialEq, Eq)]
pub struct RoleName(pub usize);

// A role name's number as files, tables and concepts hold it: a byte in every version.
#[derive(Clone, Copy, Debug, PartialEq, Eq)]
pub struct RoleIndex(pub u8);

impl RoleIndex {
    ghost use Rattle.std.specs.Prelude.{◌≡◌, ◌≤◌, ◌<◌, MatchOption};

    // The role with a number: there is none past a byte.
    pub fn numbered(number: usize) -> Option<RoleIndex>
        ensures { MatchOption result (255 < number) (λ role. (role.0 ≡ number) × (number ≤ 255)) }
    {
        if 255 < number {
            return None;
        }
        Some(RoleIndex(number as u8))
    }
}

// What belongs to release files as such: the mark at their start, and the limits of their numbers. It has no value: constants of the
// module would be no plainer, since a caller reads `Release::NAMES`.
#[derive(Clone, Copy, Debug, PartialEq, Eq)]
pub struct Release {}

impl Release {
    pub const MARK: [u8; 3] = *b"ELT";

    // The most names of any release, and of one in version 1.
    pub const NAMES: usize = 1023;

    pub const NAMES_1: usize = 127;

    pub const ROLES: usize = 32;

    pub const CONJUNCTS: usize = 16;

    // How many pairs of roles a file has is a byte.
    pub const PAIRS: usize = 255;

    // The bytes of the longest accepted file, of version 3: a header of 11, pairs of 2, and for each name an axiom of 36, with two bytes for its
    // name and for each conjunct, a byte for its kind and one for how many conjuncts it has.
    pub const LONGEST: usize = 11
        + 2 * Release::PAIRS
        + (4 + 2 * Release::CONJUNCTS) * Release::NAMES;
}

// The counts of an accepted release.
#[derive(Clone, Copy, Debug, PartialEq, Eq)]
pub struct Counts {
    pub names: usize,
    pub roles: usize,
    pub axioms: usize,
}

// Checks a release and reads it into a blank table. Of an accepted one the table then holds every axiom by name, and what lies under what.
pub fn read_release(file: &[u8], table: &mut Table) -> Result<Counts, FileRefusal>
    requires { Blank table.old }
    ensures { ReleaseRead file.now table.new result }
{
    let counts = read_header(file)?;
    read_pairs(file, &mut table.roles, counts)?;
    read_axioms(file, table, counts)?;
    let terminology = Terminology { file, table };
    if some_part_defined(&terminology, counts.names) {
        return Err(FileRefusal::DefinedConjunct);
    }
    Ok(counts)
}

// Checks a release: accepted with its counts, or the first refusal that it meets.
pub fn check_release(file: &[u8]) -> Result<Counts, FileRefusal>
    ensures { told file_refusal result ≡ checked file.now }
{
    let mut table = Table::BLANK;
    read_release(file, &mut table)
}
