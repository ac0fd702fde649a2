// Cases of a practice release: seed, n, m, length of the output; number, side, the file, empty where refused.
use crate::cases::{Case, number_in};
use crate::memory;
use crate::verdict::{Verdict, What, refusal_in, same, same_outcome};
use practice::make_practice;

// How much output a case can lend: an array, since there is no heap.
const OUTPUT: usize = 40000;

pub(crate) fn judge(case: &[u8]) -> Verdict {
    let case = Case::of(case, 7)?;
    let Case([_, _, _, output_length, ..]) = case;
    let mut output = [0u8; OUTPUT];
    memory::lend(
        &mut output,
        number_in(output_length),
        |output| made(case, output),
    )
}

// A seed has 32 bits; a greater one would be a fault of the data file, and is taken for the greatest.
fn made(case: Case, output: &mut [u8]) -> Verdict {
    let Case([seed, names, roles, _, number, side, expected, ..]) = case;
    let seed = u32::try_from(number_in(seed)).unwrap_or(u32::MAX);
    let answer = make_practice(seed, number_in(names), number_in(roles), output);
    if let Some(length) = same_outcome(answer, refusal_in(number, side))? {
        same(What::Length, length, expected.len())?;
    }
    memory::same_start(output, expected)
}
