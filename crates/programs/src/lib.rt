// What the programs do, from the bytes of their files to the bytes that they print. What a call is lent stands in separate parameters, as in
// the calls of crates meanings and branches that it is handed to.
#![tactic(auto)]

ghost use Rattle.std.specs.Prelude.{◌≡◌, ◌≤◌, length, IfSome};
ghost use Rattle.release.specs.Readings.{checked};
ghost use Rattle.programs.specs.Printed.{signature_count, rule_named, StationPrints, SheetPrints};

use branches::judging::Sheet;
use branches::row::Row;
use branches::values::fill_rows;
use meanings::{Compared, compare_releases};
use release::{Release, check_release};
use report::sheet::write_sheet;
use report::write_answer;

// The work memory that a program lends, 64 KiB: enough for 127 names, and more are refused 32.
pub const WORK_BYTES: usize = 65536;

// The room that a program lends for its text.
pub const TEXT_BYTES: usize = 4096;

// Compares, and writes the report or the refusal to the start of `output`. Answers the text's length, or none where the output is too
// short for it. The longest report, 127 names with a line each, has 800 bytes.
pub fn station(
    first: &[u8],
    second: &[u8],
    chosen: &[u8],
    work: &mut [u8],
    output: &mut [u8],
) -> Option<usize>
    ensures prints { StationPrints first.now second.now chosen.now
        work.old work.new output.old output.new result }
    ensures within { IfSome result (λ k. k ≤ length output.new) }
{
    // Local arrays, since there is no heap. The report tells of names only.
    let mut result = [0u8; Release::NAMES];
    let mut role_result = [0u8; Compared::ROLE_RESULT];
    let answer = compare_releases(first, second, chosen, &mut result, &mut role_result, work);
    write_answer(answer, &result, output).ok()
}

// How many signatures that many bytes hold, by the numbers of names and roles of the first release. Bytes left over are refused 17. Where
// the release is refused, or has neither names nor roles, there is none.
fn signature_count(first: &[u8], length: usize) -> usize
    ensures { result ≡ signature_count (checked first.now) length }
{
    let Ok(counts) = check_release(first) else {
        return 0;
    };
    let one = counts.names + counts.roles;
    length.checked_div(one).unwrap_or(0)
}

// The number of the rule that a word names, as a person writes it: a digit. Any other word names 0, which is no rule's and is refused 53.
fn rule_named(word: &[u8]) -> usize
    ensures { result ≡ rule_named word.now }
{
    let [digit] = word else {
        return 0;
    };
    usize::from(digit.saturating_sub(b'0'))
}

// Compares over the signatures that stand one after another in `chosen`, by the rule that a word names, and writes the lines or the refusal to
// the start of `output`. Answers the text's length, or none where the output is too short for it. The longest text, 64 lines of 51 bytes, fits `TEXT_BYTES`.
pub fn sheet(
    first: &[u8],
    second: &[u8],
    chosen: &[u8],
    rule: &[u8],
    work: &mut [u8],
    output: &mut [u8],
) -> Option<usize>
    ensures prints { SheetPrints first.now second.now chosen.now rule.now
        work.old work.new output.old output.new result }
    ensures within { IfSome result (λ k. k ≤ length output.new) }
{
    // A local array, since there is no heap.
    let rows = [Row::NONE; Sheet::BRANCHES];
    let count = signature_count(first, chosen.len());
    let rule = rule_named(rule);
    let filled = fill_rows(first, second, chosen, count, rule, work, rows);
    write_sheet(filled.answer, &filled.rows, count, output).ok()
}
