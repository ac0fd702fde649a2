// Where the axiom of a name stands, and its bytes.
ghost use Rattle.std.specs.Prelude.{◌≡◌, unwrap_or};
ghost use Rattle.release.specs.Files.{names_of};
ghost use Rattle.release.specs.Tables.{Release};
ghost use Rattle.release.specs.Shown.{nowhere, place_in, shown_place, Shown};

use crate::number::Version;
use crate::table::Table;
use crate::terminology::Terminology;
use crate::{ConceptName, read_release};

// A part of one of two files: the file's side, as C is told it, where the part starts and how long it is.
#[derive(Clone, Copy, Debug, PartialEq, Eq)]
pub struct Place {
    pub side: u8,
    pub start: usize,
    pub length: usize,
}

impl Place {
    // Empty, at the start of the first file.
    pub const NOWHERE: Place = Place {
        side: 1,
        start: 0,
        length: 0,
    };
}

// Where a name's axiom stands in an accepted file, by its table. Its left name and its kind byte stand before its tail.
fn place_in(terminology: &Terminology, side: u8, names: usize, name: ConceptName) -> Option<Place>
    requires accepted { Release terminology.now.file.now terminology.now.table.now }
    requires names { names ≡ names_of terminology.now.file.now }
    ensures { unwrap_or result nowhere ≡ place_in side terminology.now.file.now name.0 }
{
    let name = name.0;
    if names <= name {
        return None;
    }
    terminology.kind(name)?;
    let version = Version::of(terminology.file);
    let start = terminology.tail(name) - 1 - version.width();
    Some(Place {
        side,
        start,
        length: version.axiom_length(terminology.file, start),
    })
}

// Where the axiom that `show_axiom` shows stands. Where there is none, C is told a part of no bytes. The side is a number and any number is
// answered, as C may pass any: a type would ask more of callers. Both files are opened by the same steps here: `read_releases` of crate
// meanings lies above this crate, and refuses two that do not agree, which these need not.
pub fn axiom_place(first: &[u8], second: &[u8], side: usize, name: ConceptName) -> Place
    ensures { result ≡ shown_place first.now second.now side name.0 }
{
    let mut first_table = Table::BLANK;
    let Ok(first_counts) = read_release(first, &mut first_table) else {
        return Place::NOWHERE;
    };
    let mut second_table = Table::BLANK;
    let Ok(second_counts) = read_release(second, &mut second_table) else {
        return Place::NOWHERE;
    };
    let first = Terminology {
        file: first,
        table: &first_table,
    };
    let second = Terminology {
        file: second,
        table: &second_table,
    };
    let place = match side {
        1 => place_in(&first, 1, first_counts.names, name),
        2 => place_in(&second, 2, second_counts.names, name),
        _ => None,
    };
    place.unwrap_or(Place::NOWHERE)
}

// The axiom of a name, as a part of whichever of the two files holds it.
pub fn show_axiom<'a>(first: &'a [u8], second: &'a [u8], side: usize, name: ConceptName) -> &'a [u8]
    ensures { Shown first.entry second.entry side name.0 result }
{
    let place = axiom_place(first, second, side, name);
    let start = place.start;
    let end = start + place.length;
    if place.side == 2 {
        return &second[start..end];
    }
    &first[start..end]
}
