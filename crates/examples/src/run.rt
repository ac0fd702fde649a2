// Runs the cases of one family, which its data file holds one after another, each as a length of
// four bytes, low byte first, and that many bytes.
use crate::cases::number_in;
use crate::verdict::Verdict;
use folder::read_full;
use std::io::Read;
use std::rt::Files;
use std::{fmt, fs, io};

// How much room there is for a case: an array, since there is no heap.
const CASE_BYTES: usize = 65536;

// There is no data file, or it ends inside a case, or has one that is too long.
#[derive(Clone, Copy, Debug, PartialEq, Eq)]
pub struct Broken;

impl fmt::Display for Broken {
    fn fmt<W: fmt::Write>(&self, f: &mut fmt::Formatter<W>) -> fmt::Result {
        write!(f, "the data file is missing or broken")
    }
}

// Tries every case of the data file of this name, prints each difference, and then the counts. The
// judge tells the verdict on a case.
pub(crate) fn family<J: Fn(&[u8]) -> Verdict>(
    rt: &(impl Files + Print),
    name: &str,
    judge: J,
) -> io::Result<()>
    requires { J.IsAlwaysCallable judge }
{
    let Ok(mut file) = fs::open(rt, name) else {
        return println!(rt; "{name}: {}", Broken);
    };
    let mut room = [0u8; CASE_BYTES];
    let mut differences: u64 = 0;
    // Counted, and not until the file ends: a file may never end, and this program does.
    for cases in 0..u64::MAX {
        let next = next_case(&mut file, &mut room);
        let Ok(Some(case)) = next else {
            if next.is_err() {
                println!(rt; "{name}: {}", Broken)?;
            }
            return tell_counts(rt, name, cases, differences);
        };
        if let Err(difference) = judge(case) {
            differences += 1;
            println!(rt; "{name} {}: {difference}", cases + 1)?;
        }
    }
    tell_counts(rt, name, u64::MAX, differences)
}

// A line with the family's name and counts.
fn tell_counts(rt: &impl Print, name: &str, cases: u64, differences: u64) -> io::Result<()> {
    println!(rt; "{name}: {cases} cases, {differences} differences")
}

// Reads the next case into `room`, if the file does not end before it.
fn next_case<'a>(file: &mut impl Read, room: &'a mut [u8]) -> Result<Option<&'a [u8]>, Broken> {
    let mut head = [0u8; 4];
    let got = read_full(file, &mut head);
    if got == 0 {
        return Ok(None);
    }
    let length = number_in(&head);
    if got < head.len() || room.len() < length {
        return Err(Broken);
    }
    let case = &mut room[..length];
    if read_full(file, case) < length {
        return Err(Broken);
    }
    Ok(Some(case))
}
