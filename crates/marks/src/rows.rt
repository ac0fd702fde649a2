// Whole rows of marks, a word or a byte at a time. `a & !b` is written `(a | b) ^ b`: that has no width, so one law of bits holds
// of bytes and of words.
ghost use Rattle.std.specs.Prelude.{◌≡◌, true, ◌%◌, ◌≤◌};
ghost use Rattle.marks.specs.Squares.{Room, Hints, Within, NextMarked, NextUnmarked};
ghost use Rattle.marks.specs.Passes.{Grows, Pass, FromRow};

use crate::words::{next_bit, word};
use crate::{Square, width};

impl Square {
    // Whether row `to` has the marks of row `from`, by words, of which the row has a whole number. Where it says no, nothing is said. By bytes
    // alone, comparisons of 127 names took 1.03 to 1.18 times the instructions, and of 1,023 names 1.01 times (measured). By an index, since
    // `word` reads at a place, also where a search begins.
    fn words_within(self, work: &[u8], from: usize, to: usize) -> bool
        requires room { Room self work.now }
        requires from_le_names { (from ≤ self.names) × (to ≤ self.names) × (56 ≤ self.names % 64) }
        ensures { result ≡ true → Within self from to work.now }
    {
        let source = self.place(from, 0);
        let target = self.place(to, 0);
        let mut missing: u64 = 0;
        for i in 0..width(self.names) / 8 {
            let given = word(work, source + 8 * i);
            let had = word(work, target + 8 * i);
            missing |= (given | had) ^ had;
        }
        missing == 0
    }

    // Whether row `to` has the marks of row `from`, by bytes, for a row without a whole number of words. No byte is skipped, so that the machine
    // can look at many at a time.
    fn bytes_within(self, work: &[u8], from: usize, to: usize) -> bool
        requires room { Room self work.now }
        requires from_le_names { (from ≤ self.names) × (to ≤ self.names) }
        ensures { result ≡ true → Within self from to work.now }
    {
        let mut missing: u8 = 0;
        for (&given, &had) in self.row(work, from).iter().zip(self.row(work, to)) {
            missing |= (given | had) ^ had;
        }
        missing == 0
    }

    // Whether row `to` has the marks of row `from`. Where it says no, nothing is said.
    pub fn seems_within(self, work: &[u8], from: usize, to: usize) -> bool
        requires room { Room self work.now }
        requires from_le_names { (from ≤ self.names) × (to ≤ self.names) }
        ensures { result ≡ true → Within self from to work.now }
    {
        if 56 <= self.names % 64 {
            return self.words_within(work, from, to);
        }
        self.bytes_within(work, from, to)
    }

    // The first column of row x from `from` on that is marked. Words without marks are skipped.
    pub fn next_marked(self, work: &[u8], x: usize, from: usize) -> Option<usize>
        requires room { Room self work.now }
        requires x_le_names { x ≤ self.names }
        ensures { NextMarked self work.now x from result }
    {
        next_bit(work, self.place(x, 0), self.names, from)
    }

    // The first column of row x from `from` on that is not marked. Bytes full of marks are skipped. `next_bit` over the complement is no plainer:
    // behind the end of its block `rest` is 0, and all of that would seem unmarked.
    pub fn next_unmarked(self, work: &[u8], x: usize, from: usize) -> Option<usize>
        requires room { Room self work.now }
        requires x_le_names { x ≤ self.names }
        ensures { NextUnmarked self work.now x from result }
    {
        // a step is a byte or a column, so there is no range to go over
        let mut y = from;
        while y <= self.names {
            let i = self.place(x, y);
            let byte = work[i];
            let rest = byte >> (y % 8);
            if rest == 255 >> (y % 8) {
                y = 8 * (y / 8) + 8;
            } else if rest % 2 == 1 {
                y += 1;
            } else {
                return Some(y);
            }
        }
        None
    }

    // Puts into row `to` of a square what row x of this one has: another square of the same size, or the same. Both rows lie in one slice,
    // either before the other, so an index goes over both.
    pub(crate) fn add_row(self, work: &mut [u8], x: usize, target: Square, to: usize)
        requires room { Room self work.old × Room target work.old }
        requires names_value { (target.names ≡ self.names) × (x ≤ self.names) × (to ≤ self.names) }
        ensures grows { target ≡ self → Grows (FromRow self x to) self work.old work.new }
        ensures hints { Hints target work.old work.new }
    {
        let given = self.place(x, 0);
        let had = target.place(to, 0);
        for i in 0..width(self.names) {
            work[had + i] |= work[given + i];
        }
    }

    // Hands the marks of row `from` on to row `to`.
    pub fn hand_on(self, work: &mut [u8], from: usize, to: usize)
        requires room { Room self work.old }
        requires from_le_names { (from ≤ self.names) × (to ≤ self.names) }
        ensures { Grows (FromRow self from to) self work.old work.new }
    {
        self.add_row(work, from, self, to);
    }

    // Marks in row `to` what row `from` has. Whether a mark is new. One mark is put by itself first, since handing a row on tells nothing of
    // what was new.
    pub fn absorb(self, work: &mut [u8], from: usize, to: usize) -> bool
        requires room { Room self work.old }
        requires from_le_names { (from ≤ self.names) × (to ≤ self.names) }
        ensures { Pass (FromRow self from to) self (Within self from to) work.old work.new result }
    {
        if self.seems_within(work, from, to) {
            return false;
        }
        let Some(y) = self.next_outside(work, from, self.row(work, to), 0) else {
            return false;
        };
        self.mark(work, to, y);
        self.hand_on(work, from, to);
        true
    }
}
