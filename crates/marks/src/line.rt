// Lines: rows of bits in memory of their own, column after column from the first byte on. A line is a slice and no struct of an array or with
// a const parameter, so `Spans` stands in the contracts: a row of lent memory is a line too, whose length is known when it is read, and points
// keeps the rows of a grid as one line. `255 ^ b` stands for `!b`, since the laws of bits are proved for `^`, and in a proof `!b` is 255 - b: tried.
ghost use Rattle.std.specs.Prelude.{◌≡◌, true, ◌≤◌, ◌<◌};
ghost use Rattle.el.proofs.Tests.{Tells};
ghost use Rattle.marks.specs.Squares.{Room};
ghost use Rattle.marks.specs.Passes.{Grows, Pass};
ghost use Rattle.marks.specs.Lines.{Has, Spans, Added, Joined, NextColumn, NextOutside, Missing, Full};

use crate::words::{block_end, first_bit, next_bit, rest};
use crate::{Square, width};

// The bytes of a line for all nodes that there can be. Whoever fills a line has an array of this length, since there is no heap. The name
// stands at a type, so that a caller reads `Line::LENGTH` and not a bare `LENGTH`.
#[derive(Clone, Copy)]
pub struct Line {}

impl Line {
    pub const LENGTH: usize = 128;
}

// Whether a line has a column.
pub fn has(line: &[u8], y: usize) -> bool
    requires { Spans y line.now }
    ensures { Tells result (Has line.now y) }
{
    let byte = line[y / 8];
    (byte >> (y % 8)) % 2 == 1
}

// Adds a column to a line.
pub fn add(line: &mut [u8], y: usize)
    requires { Spans y line.old }
    ensures { Added y line.old line.new }
{
    let byte = line[y / 8];
    line[y / 8] = byte | (1 << (y % 8));
}

// The first column of a line from `from` on, up to `names`.
pub fn next(line: &[u8], names: usize, from: usize) -> Option<usize>
    requires spans { Spans names line.now }
    requires names_bound { names ≤ 65535 }
    ensures { NextColumn names line.now from result }
{
    next_bit(line, 0, names, from)
}

impl Square {
    // Adds to a line the columns that are marked in row x. By an index, since a proof knows nothing of what a `zip` over `iter_mut` has written.
    pub fn join(self, work: &[u8], x: usize, line: &mut [u8])
        requires room { Room self work.now }
        requires x_le_names { x ≤ self.names }
        requires spans { Spans self.names line.old }
        ensures { Joined self work.now x line.old line.new }
    {
        for (i, &byte) in self.row(work, x).iter().enumerate() {
            line[i] |= byte;
        }
    }

    // The first column of row x from `from` on that is marked and not in the line. Not by `next_bit`, since each word is made of two.
    pub fn next_outside(self, work: &[u8], x: usize, line: &[u8], from: usize) -> Option<usize>
        requires room { Room self work.now }
        requires x_le_names { x ≤ self.names }
        requires spans { Spans self.names line.now }
        ensures { NextOutside self work.now x line.now from result }
    {
        let row = self.place(x, 0);
        // a step is a word or a byte, so there is no range to go over
        let mut y = from;
        while y <= self.names {
            let out = rest(line, 0, self.names, y);
            let all = rest(work, row, self.names, y);
            // all & !out, as in rows
            let rest = (all | out) ^ out;
            if 0 < rest {
                let found = y + first_bit(rest);
                return (found <= self.names).then_some(found);
            }
            y = block_end(self.names, y);
        }
        None
    }

    // Marks in row x the columns that are not in the line. By an index, as `join`.
    pub fn mark_missing(self, work: &mut [u8], x: usize, line: &[u8])
        requires room { Room self work.old }
        requires x_le_names { x ≤ self.names }
        requires spans { Spans self.names line.now }
        ensures { Grows (Missing line.now x) self work.old work.new }
    {
        let target = self.place(x, 0);
        for i in 0..width(self.names) {
            work[target + i] |= 255 ^ line[i];
        }
    }

    // Whether each column is in the line or marked in row x. Where it says no, nothing is said. No byte is skipped, so that the machine
    // can look at many at a time.
    pub fn seems_full(self, work: &[u8], x: usize, line: &[u8]) -> bool
        requires room { Room self work.now }
        requires x_le_names { x ≤ self.names }
        requires spans { Spans self.names line.now }
        ensures { result ≡ true → Full self line.now x work.now }
    {
        let mut missing: u8 = 0;
        for (&had, &kept) in self.row(work, x).iter().zip(line) {
            missing |= 255 ^ (had | kept);
        }
        missing == 0
    }

    // Marks in row x the columns that are not in the line, and tells whether a mark is new. Apart from `absorb`, which marks what another row
    // has: that row lies in the memory that is written, and cannot be lent beside it; so too `seems_full` and `seems_within`.
    pub fn absorb_missing(self, work: &mut [u8], x: usize, line: &[u8]) -> bool
        requires room { Room self work.old }
        requires x_le_names { x ≤ self.names }
        requires spans { Spans self.names line.now }
        ensures { Pass (Missing line.now x) self (Full self line.now x) work.old work.new result }
    {
        if self.seems_full(work, x, line) {
            return false;
        }
        for y in 0..=self.names {
            if has(line, y) {
                continue;
            }
            if self.mark(work, x, y) {
                self.mark_missing(work, x, line);
                return true;
            }
        }
        false
    }
}
