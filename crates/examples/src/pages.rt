// Cases of a page: a result, length of the output; number, side, the page, empty where refused; number and length where the length is asked.
use crate::cases::{Case, number_in};
use crate::memory;
use crate::verdict::{Verdict, What, refusal_in, same, same_outcome};
use report::page::{page_length, write_page};

// How much output a case can lend: an array, since there is no heap.
const OUTPUT: usize = 40000;

pub(crate) fn judge(case: &[u8]) -> Verdict {
    let case = Case::of(case, 7)?;
    let Case([result_bytes, output_length, _, side, _, asked, length, ..]) = case;
    if let Some(found) = same_outcome(page_length(result_bytes), refusal_in(asked, side))? {
        same(What::Length, found, number_in(length))?;
    }
    let mut output = [0u8; OUTPUT];
    memory::lend(
        &mut output,
        number_in(output_length),
        |output| written(case, output),
    )
}

fn written(case: Case, output: &mut [u8]) -> Verdict {
    let Case([result_bytes, _, number, side, expected, ..]) = case;
    let answer = write_page(result_bytes, output);
    if let Some(length) = same_outcome(answer, refusal_in(number, side))? {
        same(What::Length, length, expected.len())?;
    }
    memory::same_start(output, expected)
}
