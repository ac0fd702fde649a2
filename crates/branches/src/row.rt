// A row of a sheet, by a branch's signature and the result bytes of its comparison.
ghost use Rattle.std.specs.Prelude.{◌≡◌, ◌≤◌, eqb, length};
ghost use Rattle.el.specs.Lists.{count};
ghost use Rattle.release.specs.Files.{most_names};
ghost use Rattle.branches.specs.Shares.{rule_number};
ghost use Rattle.branches.specs.Rows.{RowOf};

use crate::rounding::Rounding;

// How many names are chosen, how many have left and right witnesses, and how many in a thousand of those chosen are reported.
// C lends such rows too.
#[repr(C)]
#[derive(Clone, Copy, Debug, PartialEq, Eq)]
pub struct Row {
    pub chosen: u32,
    pub left: u32,
    pub right: u32,
    pub share: u32,
}

impl Row {
    // A row of which nothing is told.
    pub const NONE: Row = Row {
        chosen: 0,
        left: 0,
        right: 0,
        share: 0,
    };
}

// How many bytes have the value.
fn count(bytes: &[u8], value: u8) -> u32
    requires { length bytes.now ≤ most_names }
    ensures { (result ≡ count (λ b. eqb b value) bytes.now) × (result ≤ most_names) }
{
    // By `as`: there are no more than names, so it fits, and `try_from` has an arm that is never taken.
    bytes.iter().filter(|byte| **byte == value).count() as u32
}

// Tells the row. A name with witnesses on both sides has a byte of its own, so it is counted once in the share. The bytes are numbers, not an
// enum: they are a comparison's result bytes, as it writes them for C.
pub fn tell(names: &[u8], bytes: &[u8], rounding: Rounding) -> Row
    requires { (length names.now ≤ most_names) × (length bytes.now ≤ most_names) }
    ensures { RowOf (rule_number rounding) names.now bytes.now result }
{
    let chosen = count(names, 1);
    let left_only = count(bytes, 1);
    let right_only = count(bytes, 2);
    let both = count(bytes, 3);
    Row {
        chosen,
        left: left_only + both,
        right: right_only + both,
        share: rounding.share(left_only + right_only + both, chosen),
    }
}
