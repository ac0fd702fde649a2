// Practice releases for C and Rust, by the convention of the other calls.
ghost use Rattle.exported.specs.Practice.{PracticeReturns};

use crate::give_length;
use practice::make_practice;

// Writes the practice release of a seed as a file of version 1 to the start of the output: its length.
pub fn berrytick_practice(
    seed: u32,
    names: usize,
    roles: usize,
    output: &mut [u8],
    length: &mut u32,
) -> u32
    ensures { PracticeReturns seed names roles
        output.old output.new length.old length.new result }
{
    give_length(make_practice(seed, names, roles, output), length)
}
