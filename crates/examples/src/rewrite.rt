// Cases of Rewrite: file, wanted version, length of the output; number, side, the rewritten file, empty where refused.
use crate::cases::{Case, number_in};
use crate::memory;
use crate::verdict::{Verdict, What, refusal_in, same, same_outcome};
use release::number::Version;
use rewriting::rewrite;

// How much output a case can lend: an array, since there is no heap.
const OUTPUT: usize = 40000;

pub(crate) fn judge(case: &[u8]) -> Verdict {
    let case = Case::of(case, 6)?;
    let Case([_, _, output_length, ..]) = case;
    let mut output = [0u8; OUTPUT];
    memory::lend(
        &mut output,
        number_in(output_length),
        |output| rewritten(case, output),
    )
}

// The data files have no version but 1 to 3, and any other is taken for 2: a case has no way to tell that it is wrong.
fn rewritten(case: Case, output: &mut [u8]) -> Verdict {
    let Case([file, version, _, number, side, expected, ..]) = case;
    let version = Version::try_from(number_in(version)).unwrap_or(Version::Two);
    let answer = rewrite(file, output, version);
    if let Some(length) = same_outcome(answer, refusal_in(number, side))? {
        same(What::Length, length, expected.len())?;
    }
    memory::same_start(output, expected)
}
