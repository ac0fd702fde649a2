// Numbers as text, and the lines of two words and two numbers.
ghost use Rattle.report.specs.Numbers.{three_digits};
ghost use Rattle.report.specs.Texts.{worded, two_numbers};
ghost use Rattle.output.specs.Places.{Put};

use output::{put_byte, put_decimal, put_text};

// A number with leading zeros up to three digits.
pub fn put_three_digits(output: &mut [u8], at: usize, number: usize) -> usize
    ensures { Put output.old at (three_digits number) output.new result }
{
    // `b".."` alone is an array of its own length, so each is made a slice.
    let zeros = match number {
        0..=9 => b"00".as_slice(),
        10..=99 => b"0".as_slice(),
        _ => b"".as_slice(),
    };
    let next = put_text(output, at, zeros);
    put_decimal(output, next, number)
}

// A word and a number. The word is bytes, as all that is put: a `&str` would be made bytes here again.
pub fn put_worded(output: &mut [u8], at: usize, word: &[u8], number: usize) -> usize
    ensures { Put output.old at (worded word.now number) output.new result }
{
    let next = put_text(output, at, word);
    put_decimal(output, next, number)
}

// The line of a word, a number, a word and a number. They are handed on one by one, in the order of the line: a struct would be no plainer.
pub fn put_two_numbers(
    output: &mut [u8],
    at: usize,
    word: &[u8],
    number: usize,
    then: &[u8],
    other: usize,
) -> usize
    ensures { Put output.old at (two_numbers word.now number then.now other) output.new result }
{
    let first = put_worded(output, at, word, number);
    let second = put_worded(output, first, then, other);
    put_byte(output, second, b'\n')
}
