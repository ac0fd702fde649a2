// The page for the desk wall for C and Rust, by the convention of the other calls.
ghost use Rattle.exported.specs.Pages.{PageReturns, PageLengthReturns};

use crate::give_length;
use report::page::{page_length, write_page};

// Tells how long the page of a result is.
pub fn berrytick_page_length(result_bytes: &[u8], length: &mut u32) -> u32
    ensures { PageLengthReturns result_bytes.now length.old length.new result }
{
    give_length(page_length(result_bytes), length)
}

// Writes the page of a result to the start of the output: its length.
pub fn berrytick_page(result_bytes: &[u8], output: &mut [u8], length: &mut u32) -> u32
    ensures { PageReturns result_bytes.now output.old output.new length.old length.new result }
{
    give_length(write_page(result_bytes, output), length)
}
