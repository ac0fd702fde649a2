// Bytes put one after the other into lent memory, from a place on. Each function answers the place after what it put. The place is not kept
// in a struct with the lent bytes: after a call that is handed such a struct, the proof of what stands in the memory did not close. Neither
// `Display` nor `write!` puts it: the library promises the bytes that they write for a `String` alone, which needs a heap.
#![tactic(auto)]

ghost use Rattle.std.specs.Prelude.{◌∷◌, [], List, ℕ};
ghost use Rattle.output.specs.Places.{Put};
ghost use Rattle.output.specs.Numbers.{decimal, spaces, aligned};
ghost use Rattle.output.specs.Written.{fitted, WrittenAs};

// Puts a byte where there is room for it, and else only counts it: what is put into no bytes at all is measured.
pub fn put_byte(output: &mut [u8], at: usize, byte: u8) -> usize
    ensures { Put output.old at (byte ∷ []) output.new result }
{
    if at < output.len() {
        output[at] = byte;
    }
    at.saturating_add(1)
}

// Puts each byte of a text.
pub fn put_text(output: &mut [u8], at: usize, text: &[u8]) -> usize
    ensures { Put output.old at text.now output.new result }
{
    let mut next = at;
    for byte in text {
        next = put_byte(output, next, *byte);
    }
    next
}

// Puts so many spaces.
pub fn put_spaces(output: &mut [u8], at: usize, count: usize) -> usize
    ensures { Put output.old at (spaces count) output.new result }
{
    let mut next = at;
    for _space in 0..count {
        next = put_byte(output, next, b' ');
    }
    next
}

// Puts a number in decimal: the digits of its tenth, and its last. By hand: the library promises the bytes of `write!` for a `String` alone,
// which needs a heap, and a further crate for it would be one more to trust. It calls itself once for each digit.
pub fn put_decimal(output: &mut [u8], at: usize, number: usize) -> usize
    ensures { Put output.old at (decimal number) output.new result }
{
    // By `as`: a digit fits, and `try_from` has an arm that is never taken.
    let last = b'0' + (number % 10) as u8;
    if number < 10 {
        return put_byte(output, at, last);
    }
    let next = put_decimal(output, at, number / 10);
    put_byte(output, next, last)
}

// Puts a number in decimal, right-aligned after spaces. Its digits are counted by putting it into no bytes.
pub fn put_aligned(output: &mut [u8], at: usize, width: usize, number: usize) -> usize
    ensures { Put output.old at (aligned width number) output.new result }
{
    let digits = put_decimal(&mut [], 0, number);
    let next = put_spaces(output, at, width.saturating_sub(digits));
    put_decimal(output, next, number)
}

// Writes what a call puts from the start, if all of it fits, and answers its length. The call is made into no bytes first, to measure: so an
// output that is too short, which is refused as the caller says, stays as it was.
pub fn write_whole<F: Fn(&mut [u8]) -> usize, E: Copy>(
    output: &mut [u8],
    put: F,
    short: E,
) -> Result<usize, E>
    requires { F.IsAlwaysCallable put }
    ensures { (text : List ℕ) → ((o q : _) (next : ℕ) → F.post put o next q → Put o.now 0 text q.now next)
        → WrittenAs (fitted short text output.old) text output.old output.new result }
{
    let length = put(&mut []);
    if output.len() < length {
        return Err(short);
    }
    put(output);
    Ok(length)
}
