// The calls for C and Rust, by one convention: a call returns 0, or number * 256 + side of the refusal; what it answers it writes to lent
// numbers, which a refusal leaves as they were. The crate exported_c gives them their names for C.
#![tactic(auto)]

ghost use Rattle.std.specs.Prelude.{◌≡◌, IfOk};
ghost use Rattle.release.specs.Refusals.{told};
ghost use Rattle.exported.specs.Codes.{refusal_code, code_of, yes_or_no, Fits32, Returns};
ghost use Rattle.exported.specs.Codes.{CheckReturns, AskReturns, ShowReturns, CompareReturns, SheetReturns};
ghost use Rattle.exported.specs.Codes.{RewriteReturns, ReportReturns, WorkLengthReturns};

use crate::refusals::NumberRefusal;
use branches::compare_branches;
use branches::row::Row;
use meanings::{Compared, compare_releases};
use question::ask_position;
use release::number::Version;
use release::show::axiom_place;
use release::{ConceptName, Refusal, Release, check_release};
use report::{ReportRefusal, write_report};
use rewriting::rewrite;

pub mod concepts;
pub mod pages;
pub mod practice_releases;
mod refusals;
pub mod sessions;

// The length of the longest report there can be: 1,023 names, each with a line.
const REPORT: usize = 6202;

// The code of a refusal. Three calls and both functions that give an answer below end in the same two arms, one that writes the answer and one that
// is this: a function over a closure that writes would be no plainer, since its contract would have to say what each closure writes and leaves.
fn refusal_code<R: Refusal>(refusal: R) -> u32
    ensures { result ≡ refusal_code (R.numbers refusal) }
{
    u32::from(refusal.number()) * 256 + u32::from(refusal.side())
}

// The code of a call that lends no number.
fn code_of<A: Copy, R: Refusal>(answer: Result<A, R>) -> u32
    ensures { result ≡ code_of (told R.numbers answer) }
{
    match answer {
        Ok(_) => 0,
        Err(refusal) => refusal_code(refusal),
    }
}

// Gives the length of what was written, in bytes or in rows. Here and below `as` is proved to keep the number; `try_from` would test it once more.
fn give_length<R: Refusal>(answer: Result<usize, R>, length: &mut u32) -> u32
    requires { IfOk answer Fits32 }
    ensures { Returns (told R.numbers answer) length.old length.new result }
{
    match answer {
        Ok(written) => {
            *length = written as u32;
            0
        }
        Err(refusal) => refusal_code(refusal),
    }
}

// Gives an answer yes or no, as 1 or 0.
fn give_answer<R: Refusal>(given: Result<bool, R>, answer: &mut u32) -> u32
    ensures { Returns (yes_or_no (told R.numbers given)) answer.old answer.new result }
{
    match given {
        Ok(value) => {
            *answer = u32::from(value);
            0
        }
        Err(refusal) => refusal_code(refusal),
    }
}

// Checks a release: its counts of names, roles and axioms.
pub fn berrytick_check(file: &[u8], counts: &mut [u32; 3]) -> u32
    ensures { CheckReturns file.now counts.old counts.new result }
{
    match check_release(file) {
        Ok(found) => {
            *counts = [found.names as u32, found.roles as u32, found.axioms as u32];
            0
        }
        Err(refusal) => refusal_code(refusal),
    }
}

// Asks how two concepts lie: 0 where neither lies below the other, 1 where only the first lies below the second, 2 where only the second lies below
// the first, 3 where both do. The low bit is the answer whether the first lies below the second.
pub fn berrytick_ask(
    file: &[u8],
    below: &[u8],
    above: &[u8],
    answer: &mut u32,
    work: &mut [u8],
) -> u32
    ensures { AskReturns file.now below.now above.now
        answer.old answer.new work.old work.new result }
{
    match ask_position(file, below, above, work) {
        Ok(position) => {
            *answer = u32::from(position.number());
            0
        }
        Err(refusal) => refusal_code(refusal),
    }
}

// Shows the axiom of a name of the release on a side: the side that holds it, where it starts there and how long it is. Never refuses: where
// there is none, the part is empty, at the start of the first release.
pub fn berrytick_show(
    first: &[u8],
    second: &[u8],
    side: usize,
    name: usize,
    place: &mut [u32; 3],
) -> u32
    ensures { ShowReturns first.now second.now side name
        place.old place.new result }
{
    let shown = axiom_place(first, second, side, ConceptName(name));
    *place = [
        u32::from(shown.side),
        shown.start as u32,
        shown.length as u32,
    ];
    0
}

// Compares two releases: a byte for each name in the result, and a byte for each two roles in the role result.
pub fn berrytick_compare(
    first: &[u8],
    second: &[u8],
    signature: &[u8],
    result_bytes: &mut [u8],
    role_result: &mut [u8],
    work: &mut [u8],
) -> u32
    ensures { CompareReturns first.now second.now signature.now
        result_bytes.old result_bytes.new role_result.old role_result.new work.old work.new result }
{
    code_of(compare_releases(first, second, signature, result_bytes, role_result, work))
}

// Compares two releases over `count` signatures: a row for each, with a share by the rule of this number.
pub fn berrytick_compare_branches(
    first: &[u8],
    second: &[u8],
    signatures: &[u8],
    count: usize,
    rule: usize,
    work: &mut [u8],
    rows: &mut [Row],
) -> u32
    ensures { SheetReturns first.now second.now signatures.now count rule
        rows.old rows.new work.old work.new result }
{
    code_of(compare_branches(first, second, signatures, count, rule, work, rows))
}

// Writes a release as a file of a wanted version, 1 or 2, to the start of the output: its length. Another version is refused 3, side 0,
// before the release is read.
pub fn berrytick_rewrite(file: &[u8], wanted: usize, output: &mut [u8], length: &mut u32) -> u32
    ensures { RewriteReturns wanted file.now output.old output.new
        length.old length.new result }
{
    let Ok(version) = Version::try_from(wanted) else {
        return refusal_code(NumberRefusal::NoVersion);
    };
    give_length(rewrite(file, output, version), length)
}

// Compares two releases and writes the report to the start of the output: its length. An output that is shorter than the longest report is
// refused 33, side 0, before anything is compared, since comparing changes the work memory.
pub fn berrytick_report(
    first: &[u8],
    second: &[u8],
    signature: &[u8],
    output: &mut [u8],
    length: &mut u32,
    work: &mut [u8],
) -> u32
    ensures { ReportReturns first.now second.now signature.now
        output.old output.new length.old length.new work.old work.new result }
{
    if output.len() < REPORT {
        return refusal_code(ReportRefusal::ShortOutput);
    }
    // Local arrays, since there is no heap. The report tells of names only.
    let mut result = [0u8; Release::NAMES];
    let mut role_result = [0u8; Compared::ROLE_RESULT];
    match compare_releases(
        first,
        second,
        signature,
        &mut result,
        &mut role_result,
        work,
    ) {
        Ok(counts) => give_length(write_report(counts, &result, output), length),
        Err(refusal) => refusal_code(refusal),
    }
}

// The bytes of work memory that releases of this many names need. More names than there can be are refused 4, side 0.
pub fn berrytick_work_length(names: usize, length: &mut u32) -> u32
    ensures { WorkLengthReturns names length.old length.new result }
{
    if Release::NAMES < names {
        return refusal_code(NumberRefusal::ManyNames);
    }
    *length = marks::work_length(names) as u32;
    0
}
