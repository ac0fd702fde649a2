// The table by name, and the axioms of a file read into it.
ghost use Rattle.release.specs.Tables.{Fits, Put, Ready, AxiomsRead};

use crate::axiom::{Entry, Source};
use crate::kinds::Kind;
use crate::number::Version;
use crate::refusals::FileRefusal;
use crate::roles::RoleTable;
use crate::{Counts, Release, RoleIndex};

// What a name's axiom says, as far as it has one: its kind, its role, its filler as a node and the place of its tail in the file. The role and
// the filler are 0 where there is none. They stand beside the kind and not in it, since `successor` looks at a name's role before its kind.
#[derive(Clone, Copy, Debug, PartialEq, Eq)]
pub struct Row {
    pub kind: Option<Kind>,
    pub role: RoleIndex,
    pub filler: u16,
    pub tail: u16,
}

impl Row {
    // A name without an axiom.
    pub const BLANK: Row = Row {
        kind: None,
        role: RoleIndex(0),
        filler: 0,
        tail: 0,
    };
}

// A row for each name that there can be, and which roles lie under which. Its owners keep it as a local, since there is no heap.
#[derive(Clone, Copy, Debug, PartialEq, Eq)]
pub struct Table {
    pub rows: [Row; Table::LENGTH],
    pub roles: RoleTable,
}

impl Table {
    pub const LENGTH: usize = Release::NAMES;

    // No name has an axiom. All zeros, the roles too, which the pairs of a file are read into: so two tables are made without a copy.
    pub const BLANK: Table = Table {
        rows: [Row::BLANK; Table::LENGTH],
        roles: RoleTable::NONE,
    };
}

// Puts an axiom's numbers into the row of its left name. `as` is proved to keep them; `try_from` would test them once more.
fn put_row(table: &mut Table, entry: Entry)
    requires { Fits entry }
    ensures { Put entry table.old table.new }
{
    table.rows[entry.left.0] = Row {
        kind: Some(entry.kind),
        role: entry.role,
        filler: entry.filler as u16,
        tail: entry.tail as u16,
    };
}

// Reads the axioms of a header's counts into a blank table, up to the first refusal among them, bytes left over included.
pub fn read_axioms(file: &[u8], table: &mut Table, counts: Counts) -> Result<(), FileRefusal>
    requires { Ready counts.names counts.roles counts.axioms file.now table.old }
    ensures { AxiomsRead counts.names counts.roles counts.axioms file.now table.old table.new result }
{
    let version = Version::of(file);
    let source = Source {
        file,
        version,
        counts,
    };
    // The place stands beside the count: where the next axiom starts is known only when this one is read, so no iterator gives it.
    let mut at = version.first_place(file);
    let mut least: usize = 0;
    for _read in 0..counts.axioms {
        // by `let .. else` and not by `?`: the project asked for this form here (docs/DECISIONS.md, "Forms")
        let read = source.read_axiom(at, least);
        let Ok((entry, next)) = read else {
            return read.and(Ok(()));
        };
        put_row(table, entry);
        least = entry.left.0 + 1;
        at = next.at;
    }
    if at < file.len() {
        return Err(FileRefusal::BytesLeftOver);
    }
    Ok(())
}
