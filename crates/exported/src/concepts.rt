// The concept shown and its check for C and Rust, by the convention of the other calls.
ghost use Rattle.exported.specs.Concepts.{ShowConceptReturns, CheckConceptReturns};

use crate::{give_answer, give_length};
use release::ConceptName;
use witness::checking::check_concept;
use witness::showing::show_concept;

// Shows a concept for a name and a side, written as rows of three numbers each: the number of rows.
pub fn berrytick_show_concept(
    first: &[u8],
    second: &[u8],
    signature: &[u8],
    name: usize,
    side: usize,
    rows: &mut [u32],
    count: &mut u32,
    work: &mut [u8],
) -> u32
    ensures { ShowConceptReturns first.now second.now signature.now side name
        rows.old rows.new count.old count.new work.old work.new result }
{
    let shown = show_concept(
        first,
        second,
        signature,
        ConceptName(name),
        side,
        rows,
        work,
    );
    give_length(shown, count)
}

// Checks rows from any editor for a name and a side: 1 for yes and 0 for no.
pub fn berrytick_check_concept(
    first: &[u8],
    second: &[u8],
    signature: &[u8],
    name: usize,
    side: usize,
    rows: &[u32],
    answer: &mut u32,
    work: &mut [u8],
) -> u32
    ensures { CheckConceptReturns first.now second.now signature.now side name
        rows.now answer.old answer.new work.old work.new result }
{
    let verdict = check_concept(
        first,
        second,
        signature,
        ConceptName(name),
        side,
        rows,
        work,
    );
    give_answer(verdict, answer)
}
