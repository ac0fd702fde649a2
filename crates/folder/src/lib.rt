// The files of the folder that a program is run in.
#![tactic(auto)]

ghost use Rattle.std.specs.Prelude.{◌≤◌, length, take};
ghost use Rattle.std.specs.Io.KnownBytes.{Consumes};

use release::Release;
use std::io::Read;
use std::rt::Files;
use std::{fs, str};

// One byte more than the longest accepted release. A longer file is refused by these first bytes as by all of it (`first_bytes_decide` of crate
// release): every byte that a header, a pair or an axiom is read from stands before the last of them, so the refusals 1 to 13 and 49 come out
// alike; where none of them holds, bytes are left over in both, and the refusal is 14, whatever they are.
pub const RELEASE_BYTES: usize = Release::LONGEST + 1;

// Reads the file's bytes to the start of `room`, as many as it holds, and answers those bytes. A missing file counts as empty, and a read
// that fails as the end of the file. A name is bytes and no `&str`, so that any can be asked for: one that is not UTF-8 is no file's.
// No clause says which bytes of `room` these are: lent on as the result, `room` has no value after the call that a clause could name.
pub fn read_file<'a>(rt: &impl Files, name: &[u8], room: &'a mut [u8]) -> &'a [u8]
    ensures { length result.now ≤ length room.old }
{
    let Ok(name) = str::from_utf8(name) else {
        return &[];
    };
    let Ok(mut file) = fs::open(rt, name) else {
        return &[];
    };
    let length = read_full(&mut file, room);
    &room[..length]
}

// Reads until `room` is full, the file ends or a read fails, and answers how many bytes it put at the start of `room`. A loop, since the
// library's `read_exact` promises nothing of a file that is too short.
pub fn read_full<R: Read>(file: &mut R, room: &mut [u8]) -> usize
    ensures within { result ≤ length room.new }
    ensures bytes { Consumes (R.remaining file.old) (R.remaining file.new) (take result room.new) }
{
    let mut done: usize = 0;
    while done < room.len() {
        let Ok(count) = file.read(&mut room[done..]) else {
            break;
        };
        if count == 0 {
            break;
        }
        done += count;
    }
    done
}
