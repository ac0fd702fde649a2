// The report of a comparison, the text of a sheet and the page for the desk wall, in a caller's bytes.
#![tactic(auto)]

ghost use Rattle.release.specs.Refusals.{told};
ghost use Rattle.report.specs.Texts.{refusal_line};
ghost use Rattle.report.specs.Answered.{answer_text, answer_to};
ghost use Rattle.output.specs.Written.{WrittenAs, fitted};
ghost use Rattle.report.specs.Written.{report_text, report_answer};
ghost use Rattle.report.specs.declared.refusals.ReportRefusal.TheVariants.{ShortOutput};

use crate::lines::{Report, Side};
use crate::numbers::put_two_numbers;
pub use crate::refusals::{PageRefusal, ReportRefusal};
use meanings::Compared;
use output::write_whole;
use release::Refusal;

mod lines;
mod numbers;
pub mod page;
mod refusals;
pub mod sheet;

// Writes the report of a comparison with these counts, whose result is the first bytes of `result_bytes`, one for each name, and
// answers its length.
pub fn write_report(
    counts: Compared,
    result_bytes: &[u8],
    output: &mut [u8],
) -> Result<usize, ReportRefusal>
    ensures { WrittenAs (report_answer counts.names counts.roles result_bytes.now output.old)
        (report_text counts.names counts.roles result_bytes.now) output.old output.new result }
{
    let count = usize::from(counts.names);
    if result_bytes.len() < count {
        return Err(ReportRefusal::ShortResult);
    }
    let bytes = &result_bytes[..count];
    let report = Report {
        names: count,
        roles: usize::from(counts.roles),
        left: Side::Left.count(bytes),
        right: Side::Right.count(bytes),
        bytes,
    };
    write_whole(
        output,
        |output| report.put(output),
        ReportRefusal::ShortOutput,
    )
}

// Writes the line of a refused comparison.
pub fn write_refusal<R: Refusal>(refusal: R, output: &mut [u8]) -> Result<usize, ReportRefusal>
    ensures { WrittenAs (fitted ShortOutput (refusal_line (R.numbers refusal).number (R.numbers refusal).side) output.old)
        (refusal_line (R.numbers refusal).number (R.numbers refusal).side) output.old output.new result }
{
    let number = usize::from(refusal.number());
    let side = usize::from(refusal.side());
    write_whole(
        output,
        |output| put_two_numbers(output, 0, b"refused ", number, b" side ", side),
        ReportRefusal::ShortOutput,
    )
}

// Writes the report of an accepted comparison with this result, or the line of a refused one.
pub fn write_answer<R: Refusal>(
    answer: Result<Compared, R>,
    result_bytes: &[u8],
    output: &mut [u8],
) -> Result<usize, ReportRefusal>
    ensures { WrittenAs (answer_to (told R.numbers answer) result_bytes.now output.old)
        (answer_text (told R.numbers answer) result_bytes.now) output.old output.new result }
{
    match answer {
        Ok(counts) => write_report(counts, result_bytes, output),
        Err(refusal) => write_refusal(refusal, output),
    }
}
