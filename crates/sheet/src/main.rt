// Compares the releases of the folder that it is run in, `first.elt` and `second.elt`, over the signatures that stand one after another
// in `chosen.sigs`, and prints a line for each branch. Its argument is the number of the rule for the share: 1 rounds down, as without one, and 2
// to the nearest. A missing file counts as empty; a failed write ends the program with its error.
#![tactic(auto)]

use folder::{RELEASE_BYTES, read_file};
use programs::{TEXT_BYTES, WORK_BYTES, sheet};
use std::env::{Env, FillError};
use std::io;

// 65 of the longest signatures, of 1,023 names and 32 roles. Of a longer file these bytes hold more than 64 signatures, whatever the
// releases, and are refused 42 as all of it is.
const SIGNATURES_BYTES: usize = 68575;

// The word that names the rule: the program's first argument, and that of rule 1 where there is none.
fn rule<'a>(rt: &impl Env, room: &'a mut [u8]) -> &'a [u8] {
    match rt.arg(1, room) {
        Ok(length) => &room[..length],
        Err(FillError::NotPresent) => b"1",
        // Longer than each word that names a rule; the empty one names none either.
        Err(FillError::TooLong) => b"",
    }
}

// The program `station` differs in the call, a size and the argument alone. One function for both would be public and promise nothing, since no clause
// speaks of what is printed, and each public function of this repository promises something. The memory is arrays: there is no heap.
fn main(rt: HostRuntime) -> io::Result<()> {
    let mut first = [0u8; RELEASE_BYTES];
    let mut second = [0u8; RELEASE_BYTES];
    let mut chosen = [0u8; SIGNATURES_BYTES];
    let mut word = [0u8; 2];
    let mut work = [0u8; WORK_BYTES];
    let mut text = [0u8; TEXT_BYTES];
    let written = sheet(
        read_file(&rt, b"first.elt", &mut first),
        read_file(&rt, b"second.elt", &mut second),
        read_file(&rt, b"chosen.sigs", &mut chosen),
        rule(&rt, &mut word),
        &mut work,
        &mut text,
    );
    let Some(length) = written else {
        return Ok(());
    };
    rt.write_all(&text[..length])
}
