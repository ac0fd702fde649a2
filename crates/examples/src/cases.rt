// A case as the data files hold it: a sequence of fields, each a length of four bytes, low byte
// first, and that many bytes. A number is a field of one to eight bytes, low byte first.
ghost use Rattle.std.specs.Prelude.{◌+◌, ◌≤◌, length, IfSome};
ghost use Rattle.std.specs.Iterator.{at_most};

use crate::verdict::{Difference, What, same};
use std::array;

// The most fields that a case has.
const MOST: usize = 15;

// The fields of a case, with empty ones past its last. The array has room for all families, and the number of fields is a parameter of
// `of`: tried as `[&[u8]; N]`, the proof did not close, as an array of references whose length is a const parameter has no proof rule yet.
#[derive(Clone, Copy)]
pub(crate) struct Case<'a>(pub [&'a [u8]; MOST]);

impl<'a> Case<'a> {
    // The case in these bytes, if it has as many fields as expected. Bytes that are not a whole number of fields count as no field.
    pub(crate) fn of(bytes: &'a [u8], expected: usize) -> Result<Case<'a>, Difference> {
        let mut rest = Rest { bytes };
        let count = rest.by_ref().count();
        let whole = if rest.bytes.is_empty() { count } else { 0 };
        same(What::Fields, whole, expected)?;
        let fields = array::from_fn(|place| Rest { bytes }.nth(place).unwrap_or(&[]));
        Ok(Case(fields))
    }
}

// What is left of a case: its fields come one after the other, up to its end or to bytes that are no whole field.
#[derive(Clone, Copy)]
struct Rest<'a> {
    bytes: &'a [u8],
}

impl<'a> Iterator for Rest<'a> {
    type Item = &'a [u8];

    ghost remaining = { λ s. at_most (length s.bytes.now) };

    fn next(&mut self) -> Option<&'a [u8]> {
        let (field, after) = split(self.bytes)?;
        self.bytes = after;
        Some(field)
    }
}

// The first field of a case, and what follows it, if the case begins with a whole one.
// The length is made a usize by `as`, as there is no From for 32 bits.
fn split(case: &[u8]) -> Option<(&[u8], &[u8])>
    ensures { IfSome result (λ parts. 4 + length parts.1.now ≤ length case.now) }
{
    let (head, rest) = case.split_first_chunk::<4>()?;
    rest.split_at_checked(u32::from_le_bytes(*head) as usize)
}

// The number that a field holds: its first eight bytes, where a missing one counts 0.
pub(crate) fn number_in(bytes: &[u8]) -> usize {
    let mut eight = [0u8; 8];
    let length = bytes.len().min(8);
    eight[..length].copy_from_slice(&bytes[..length]);
    usize::from_le_bytes(eight)
}
