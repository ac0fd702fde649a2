// The calls of the crate exported under their names for C: each does what the call of its name there does, and promises the
// same. They stand twice, since a crate is a library, which proofs and other crates name, or a static library, which C links.
// include/berrytick.h declares them.
#![tactic(auto)]

ghost use Rattle.exported.specs.Codes.{CheckReturns, AskReturns, ShowReturns, CompareReturns, SheetReturns};
ghost use Rattle.exported.specs.Codes.{RewriteReturns, ReportReturns, WorkLengthReturns};
ghost use Rattle.exported.specs.Concepts.{ShowConceptReturns, CheckConceptReturns};
ghost use Rattle.exported.specs.Pages.{PageReturns, PageLengthReturns};
ghost use Rattle.exported.specs.Practice.{PracticeReturns};
ghost use Rattle.exported.specs.Sessions.{StartReturns, AddReturns, WithdrawReturns, CountsReturn, ByteReturns, FileReturns, SignatureReturns};

use branches::row::Row;
use editing::{HeldFile, Session};
use exported::{concepts, pages, practice_releases, sessions};
use session_bytes::Layout;

// Checks a release: its counts of names, roles and axioms.
#[unsafe(no_mangle)]
pub extern "C" fn berrytick_check(file: &[u8], counts: &mut [u32; 3]) -> u32
    ensures { CheckReturns file.now counts.old counts.new result }
{
    exported::berrytick_check(file, counts)
}

// Asks how two concepts lie: 0 for neither below the other, 1 for the first below the second only, 2 for the second below the first only, 3 for both.
#[unsafe(no_mangle)]
pub extern "C" fn berrytick_ask(
    file: &[u8],
    below: &[u8],
    above: &[u8],
    answer: &mut u32,
    work: &mut [u8],
) -> u32
    ensures { AskReturns file.now below.now above.now
        answer.old answer.new work.old work.new result }
{
    exported::berrytick_ask(file, below, above, answer, work)
}

// Shows the axiom of a name of the release on a side: the side that holds it, where it starts there and how long it is. Never refuses: where
// there is none, the part is empty, at the start of the first release.
#[unsafe(no_mangle)]
pub extern "C" fn berrytick_show(
    first: &[u8],
    second: &[u8],
    side: usize,
    name: usize,
    place: &mut [u32; 3],
) -> u32
    ensures { ShowReturns first.now second.now side name
        place.old place.new result }
{
    exported::berrytick_show(first, second, side, name, place)
}

// Compares two releases: a byte for each name in the result, and a byte for each two roles in the role result.
#[unsafe(no_mangle)]
pub extern "C" fn berrytick_compare(
    first: &[u8],
    second: &[u8],
    signature: &[u8],
    result_bytes: &mut [u8],
    role_result: &mut [u8],
    work: &mut [u8],
) -> u32
    ensures { CompareReturns first.now second.now signature.now
        result_bytes.old result_bytes.new role_result.old role_result.new work.old work.new result }
{
    exported::berrytick_compare(first, second, signature, result_bytes, role_result, work)
}

// Compares two releases over `count` signatures: a row for each, with a share by the rule of this number.
#[unsafe(no_mangle)]
pub extern "C" fn berrytick_compare_branches(
    first: &[u8],
    second: &[u8],
    signatures: &[u8],
    count: usize,
    rule: usize,
    work: &mut [u8],
    rows: &mut [Row],
) -> u32
    ensures { SheetReturns first.now second.now signatures.now count rule
        rows.old rows.new work.old work.new result }
{
    exported::berrytick_compare_branches(first, second, signatures, count, rule, work, rows)
}

// Shows a concept for a name and a side, written as rows of three numbers each: the number of rows.
#[unsafe(no_mangle)]
pub extern "C" fn berrytick_show_concept(
    first: &[u8],
    second: &[u8],
    signature: &[u8],
    name: usize,
    side: usize,
    rows: &mut [u32],
    count: &mut u32,
    work: &mut [u8],
) -> u32
    ensures { ShowConceptReturns first.now second.now signature.now side name
        rows.old rows.new count.old count.new work.old work.new result }
{
    concepts::berrytick_show_concept(first, second, signature, name, side, rows, count, work)
}

// Checks rows from any editor for a name and a side: 1 for yes and 0 for no.
#[unsafe(no_mangle)]
pub extern "C" fn berrytick_check_concept(
    first: &[u8],
    second: &[u8],
    signature: &[u8],
    name: usize,
    side: usize,
    rows: &[u32],
    answer: &mut u32,
    work: &mut [u8],
) -> u32
    ensures { CheckConceptReturns first.now second.now signature.now side name
        rows.now answer.old answer.new work.old work.new result }
{
    concepts::berrytick_check_concept(first, second, signature, name, side, rows, answer, work)
}

// Writes a release as a file of a wanted version, 1 or 2, to the start of the output: its length. Another version is refused 3, side 0,
// before the release is read.
#[unsafe(no_mangle)]
pub extern "C" fn berrytick_rewrite(
    file: &[u8],
    wanted: usize,
    output: &mut [u8],
    length: &mut u32,
) -> u32
    ensures { RewriteReturns wanted file.now output.old output.new
        length.old length.new result }
{
    exported::berrytick_rewrite(file, wanted, output, length)
}

// Compares two releases and writes the report to the start of the output: its length. An output that is shorter than the longest report is
// refused 33, side 0, before anything is compared, since comparing changes the work memory.
#[unsafe(no_mangle)]
pub extern "C" fn berrytick_report(
    first: &[u8],
    second: &[u8],
    signature: &[u8],
    output: &mut [u8],
    length: &mut u32,
    work: &mut [u8],
) -> u32
    ensures { ReportReturns first.now second.now signature.now
        output.old output.new length.old length.new work.old work.new result }
{
    exported::berrytick_report(first, second, signature, output, length, work)
}

// Tells how long the page of a result is.
#[unsafe(no_mangle)]
pub extern "C" fn berrytick_page_length(result_bytes: &[u8], length: &mut u32) -> u32
    ensures { PageLengthReturns result_bytes.now length.old length.new result }
{
    pages::berrytick_page_length(result_bytes, length)
}

// Writes the page of a result to the start of the output: its length.
#[unsafe(no_mangle)]
pub extern "C" fn berrytick_page(result_bytes: &[u8], output: &mut [u8], length: &mut u32) -> u32
    ensures { PageReturns result_bytes.now output.old output.new length.old length.new result }
{
    pages::berrytick_page(result_bytes, output, length)
}

// Writes the practice release of a seed as a file of version 1 to the start of the output: its length.
#[unsafe(no_mangle)]
pub extern "C" fn berrytick_practice(
    seed: u32,
    names: usize,
    roles: usize,
    output: &mut [u8],
    length: &mut u32,
) -> u32
    ensures { PracticeReturns seed names roles
        output.old output.new length.old length.new result }
{
    practice_releases::berrytick_practice(seed, names, roles, output, length)
}

// The bytes of work memory that releases of this many names need. More names than there can be are refused 4, side 0.
#[unsafe(no_mangle)]
pub extern "C" fn berrytick_work_length(names: usize, length: &mut u32) -> u32
    ensures { WorkLengthReturns names length.old length.new result }
{
    exported::berrytick_work_length(names, length)
}

// Starts a session from two releases and a signature: its bytes.
#[unsafe(no_mangle)]
pub extern "C" fn berrytick_session_start(
    first: &[u8],
    second: &[u8],
    signature: &[u8],
    session: &mut [u8; Layout::LENGTH],
    work: &mut [u8],
) -> u32
    ensures { StartReturns first.now second.now signature.now
        session.old session.new work.old work.new result }
{
    sessions::berrytick_session_start(first, second, signature, session, work)
}

// Adds an axiom, given by its bytes in a file, to the release on a side.
#[unsafe(no_mangle)]
pub extern "C" fn berrytick_session_add(
    session: &mut [u8; Layout::LENGTH],
    side: usize,
    text: &[u8],
    work: &mut [u8],
) -> u32
    ensures { AddReturns side text.now
        session.old session.new work.old work.new result }
{
    sessions::berrytick_session_add(session, side, text, work)
}

// Withdraws a name's axiom from the release on a side.
#[unsafe(no_mangle)]
pub extern "C" fn berrytick_session_withdraw(
    session: &mut [u8; Layout::LENGTH],
    side: usize,
    name: usize,
    work: &mut [u8],
) -> u32
    ensures { WithdrawReturns side name
        session.old session.new work.old work.new result }
{
    sessions::berrytick_session_withdraw(session, side, name, work)
}

// The numbers of names and roles of a session. It never refuses, and nor do the readers below.
#[unsafe(no_mangle)]
pub extern "C" fn berrytick_session_counts(
    session: &[u8; Layout::LENGTH],
    counts: &mut [u32; 2],
) -> u32
    ensures { CountsReturn session.now counts.old counts.new result }
{
    sessions::berrytick_session_counts(session, counts)
}

// The result byte of a name.
#[unsafe(no_mangle)]
pub extern "C" fn berrytick_session_byte(
    session: &[u8; Layout::LENGTH],
    name: usize,
    byte: &mut u32,
) -> u32
    ensures { ByteReturns session.now name byte.old byte.new result }
{
    sessions::berrytick_session_byte(session, name, byte)
}

// Copies the file held on a side to the start of the output: its length.
#[unsafe(no_mangle)]
pub extern "C" fn berrytick_session_file(
    session: &[u8; Layout::LENGTH],
    side: usize,
    output: &mut [u8; HeldFile::LENGTH],
    length: &mut u32,
) -> u32
    ensures { FileReturns session.now side output.old output.new length.old length.new result }
{
    sessions::berrytick_session_file(session, side, output, length)
}

// Copies the signature's bytes to the start of the output: how many these are.
#[unsafe(no_mangle)]
pub extern "C" fn berrytick_session_signature(
    session: &[u8; Layout::LENGTH],
    output: &mut [u8; Session::SIGNATURE],
    length: &mut u32,
) -> u32
    ensures { SignatureReturns session.now output.old output.new length.old length.new result }
{
    sessions::berrytick_session_signature(session, output, length)
}
