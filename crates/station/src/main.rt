// Compares the releases of the folder that it is run in, `first.elt` and `second.elt`, over the signature `chosen.sig`, and
// prints the report. A missing file counts as empty; a failed write ends the program with its error.
#![tactic(auto)]

use folder::{RELEASE_BYTES, read_file};
use programs::{TEXT_BYTES, WORK_BYTES, station};
use std::io;

// One byte more than the longest accepted signature, of 1,023 names and 32 roles: a longer one is refused 17 by its length.
const SIGNATURE_BYTES: usize = 1056;

// The memory is arrays: there is no heap.
fn main(rt: HostRuntime) -> io::Result<()> {
    let mut first = [0u8; RELEASE_BYTES];
    let mut second = [0u8; RELEASE_BYTES];
    let mut chosen = [0u8; SIGNATURE_BYTES];
    let mut work = [0u8; WORK_BYTES];
    let mut text = [0u8; TEXT_BYTES];
    let written = station(
        read_file(&rt, b"first.elt", &mut first),
        read_file(&rt, b"second.elt", &mut second),
        read_file(&rt, b"chosen.sig", &mut chosen),
        &mut work,
        &mut text,
    );
    let Some(length) = written else {
        return Ok(());
    };
    rt.write_all(&text[..length])
}
