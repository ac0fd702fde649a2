// Memory that a case lends to a call: filled with a mark before, and looked at after. It is an array, as in the programs, which have no heap.
use crate::verdict::{Verdict, What, same};

// What lent memory holds before the call: neither 0 nor a byte of any answer.
pub const MARK: u8 = 165;

// How much memory a case can lend.
pub const ROOM: usize = 360448;

// Marks the first bytes and lends them to a call, or tells that there are not so many.
pub(crate) fn lend<F: FnOnce(&mut [u8]) -> Verdict>(
    room: &mut [u8],
    length: usize,
    call: F,
) -> Verdict
    requires { F.IsAlwaysCallable call }
{
    if room.len() < length {
        return same(What::Length, room.len(), length);
    }
    let lent = &mut room[..length];
    lent.fill(MARK);
    call(lent)
}

// Whether the first bytes are the expected ones, and all later ones as they were.
pub(crate) fn same_start(memory: &[u8], expected: &[u8]) -> Verdict {
    for (place, byte) in memory.iter().enumerate() {
        let right = expected.get(place).copied().unwrap_or(MARK);
        same(What::Byte(place), *byte, right)?;
    }
    Ok(())
}

// Whether the first `zeros` bytes are 0, and all later ones as they were. One function for both would take two closures, and be no plainer.
pub(crate) fn zero_start(memory: &[u8], zeros: usize) -> Verdict {
    for (place, byte) in memory.iter().enumerate() {
        let right = if place < zeros { 0 } else { MARK };
        same(What::Work(place), *byte, right)?;
    }
    Ok(())
}
