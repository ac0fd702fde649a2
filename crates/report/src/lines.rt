// The lines of the reported names, their counts, and the report as a whole.
ghost use Rattle.std.specs.Prelude.{◌≡◌, List, ℕ};
ghost use Rattle.el.specs.Lists.{count};
ghost use Rattle.report.specs.Texts.{entry, lines, report_with};
ghost use Rattle.report.specs.Sides.{SideOf, side_letter, on_side, side_byte};
ghost use Rattle.output.specs.Places.{Put};

use crate::numbers::{put_three_digits, put_two_numbers};
use output::put_byte;
use release::ConceptName;

// Where a name is reported: on the left only, on the right only, or on both sides.
#[derive(Clone, Copy, Debug, PartialEq, Eq)]
pub enum Side {
    Left,
    Right,
    Both,
}

impl Side {
    // By the name's result byte, which C reads, too. A name with another byte is not reported.
    pub fn of(byte: u8) -> Option<Side>
        ensures { SideOf byte result }
    {
        match byte {
            1 => Some(Side::Left),
            2 => Some(Side::Right),
            3 => Some(Side::Both),
            _ => None,
        }
    }

    pub fn letter(self) -> u8
        ensures { result ≡ side_letter self }
    {
        match self {
            Side::Left => b'L',
            Side::Right => b'R',
            Side::Both => b'B',
        }
    }

    // Whether a byte reports its name on this side: alone or with the other.
    fn reports(self, byte: u8) -> bool
        ensures { result ≡ on_side (side_byte self) byte }
    {
        match Side::of(byte) {
            Some(Side::Both) => true,
            Some(side) => side == self,
            None => false,
        }
    }

    // How many names are reported on it.
    pub fn count(self, bytes: &[u8]) -> usize
        ensures { result ≡ count (on_side (side_byte self)) bytes.now }
    {
        bytes.iter().filter(|byte| self.reports(**byte)).count()
    }
}

// The line of a name, if it is reported.
fn put_entry(output: &mut [u8], at: usize, name: ConceptName, byte: u8) -> usize
    ensures { Put output.old at (entry name.0 byte) output.new result }
{
    let Some(side) = Side::of(byte) else {
        return at;
    };
    let first = put_three_digits(output, at, name.0);
    let second = put_byte(output, first, b' ');
    let third = put_byte(output, second, side.letter());
    put_byte(output, third, b'\n')
}

fn put_lines(output: &mut [u8], at: usize, bytes: &[u8]) -> usize
    ensures { Put output.old at (lines 0 bytes.now) output.new result }
{
    let mut next = at;
    for (name, byte) in bytes.iter().enumerate() {
        next = put_entry(output, next, ConceptName(name), *byte);
    }
    next
}

// A report: the numbers of names and roles, how many names are reported on the left and on the right, and the names' result bytes.
#[derive(Clone, Copy, Debug, PartialEq, Eq)]
pub struct Report<'a> {
    pub names: usize,
    pub roles: usize,
    pub left: usize,
    pub right: usize,
    pub bytes: &'a [u8],
}

impl<'a> Report<'a> {
    pub fn put(&self, output: &mut [u8]) -> usize
        ensures { Put output.old 0 (report_with self.now.names self.now.roles self.now.left self.now.right self.now.bytes.now) output.new result }
    {
        let first = put_two_numbers(output, 0, b"names ", self.names, b" roles ", self.roles);
        let second = put_lines(output, first, self.bytes);
        put_two_numbers(output, second, b"left ", self.left, b" right ", self.right)
    }
}
