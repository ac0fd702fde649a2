// Eight bytes read as one number, a word, so that 64 cells are looked at at once. The compiler makes one read of it.
ghost use Rattle.std.specs.Prelude.{◌≡◌, ◌+◌, ◌≤◌, ◌<◌, length};
ghost use Rattle.marks.specs.Words.{Reads, block_end, Rest, FirstBit, InRow, RowLies, NextBit};

// The word of the eight bytes from `at` on, low byte first. `u64::from_le_bytes(*memory[at..].first_chunk().unwrap())` is no plainer: it takes
// three calls, and a proof that the `unwrap` never fails.
pub fn word(memory: &[u8], at: usize) -> u64
    requires { at + 8 ≤ length memory.now }
    ensures { Reads 64 memory.now at result }
{
    let mut word: u64 = 0;
    for i in 0..8 {
        word = 256 * word + u64::from(memory[at + (7 - i)]);
    }
    word
}

// The first bit of a number that is 1.
pub fn first_bit(word: u64) -> usize
    requires { 0 < word }
    ensures { FirstBit word result }
{
    // no `From` leads from u32 to usize
    word.trailing_zeros() as usize
}

// The bits of a row from column y on, as far as its word goes, or its byte where the row has no whole word there.
pub fn rest(memory: &[u8], row: usize, names: usize, y: usize) -> u64
    requires { InRow names memory.now row y }
    ensures { Rest names memory.now row y result }
{
    if 8 * (y / 64) + 7 <= names / 8 {
        return word(memory, row + 8 * (y / 64)) >> (y % 64);
    }
    u64::from(memory[row + y / 8]) >> (y % 8)
}

// The column where these bits end.
pub fn block_end(names: usize, y: usize) -> usize
    requires { (y ≤ names) × (names ≤ 65535) }
    ensures { result ≡ block_end names y }
{
    if 8 * (y / 64) + 7 <= names / 8 {
        return 64 * (y / 64) + 64;
    }
    8 * (y / 8) + 8
}

// The first bit of a row from column `from` on that is 1. Words without one are skipped.
#[inline(always)]
pub(crate) fn next_bit(memory: &[u8], row: usize, names: usize, from: usize) -> Option<usize>
    requires { RowLies names memory.now row }
    ensures { NextBit names memory.now row from result }
{
    // a step is a word or a byte, so there is no range to go over
    let mut y = from;
    while y <= names {
        let rest = rest(memory, row, names, y);
        if 0 < rest {
            let found = y + first_bit(rest);
            return (found <= names).then_some(found);
        }
        y = block_end(names, y);
    }
    None
}
