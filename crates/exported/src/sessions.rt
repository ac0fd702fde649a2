// Sessions for C and Rust, lent as bytes, by the convention of the other calls.
ghost use Rattle.exported.specs.Sessions.{StartReturns, AddReturns, WithdrawReturns, CountsReturn, ByteReturns, FileReturns, SignatureReturns};

use crate::code_of;
use editing::{HeldFile, Session};
use release::ConceptName;
use session_bytes::{Layout, add_axiom, readers, start_session, withdraw_axiom};

// Starts a session from two releases and a signature: its bytes.
pub fn berrytick_session_start(
    first: &[u8],
    second: &[u8],
    signature: &[u8],
    session: &mut [u8; Layout::LENGTH],
    work: &mut [u8],
) -> u32
    ensures { StartReturns first.now second.now signature.now
        session.old session.new work.old work.new result }
{
    code_of(start_session(first, second, signature, session, work))
}

// Adds an axiom, given by its bytes in a file, to the release on a side.
pub fn berrytick_session_add(
    session: &mut [u8; Layout::LENGTH],
    side: usize,
    text: &[u8],
    work: &mut [u8],
) -> u32
    ensures { AddReturns side text.now
        session.old session.new work.old work.new result }
{
    code_of(add_axiom(session, side, text, work))
}

// Withdraws a name's axiom from the release on a side.
pub fn berrytick_session_withdraw(
    session: &mut [u8; Layout::LENGTH],
    side: usize,
    name: usize,
    work: &mut [u8],
) -> u32
    ensures { WithdrawReturns side name
        session.old session.new work.old work.new result }
{
    code_of(withdraw_axiom(session, side, ConceptName(name), work))
}

// The numbers of names and roles. It never refuses, and nor do the readers below.
pub fn berrytick_session_counts(session: &[u8; Layout::LENGTH], counts: &mut [u32; 2]) -> u32
    ensures { CountsReturn session.now counts.old counts.new result }
{
    *counts = [
        readers::names(session) as u32,
        readers::roles(session) as u32,
    ];
    0
}

// The result byte of a name.
pub fn berrytick_session_byte(session: &[u8; Layout::LENGTH], name: usize, byte: &mut u32) -> u32
    ensures { ByteReturns session.now name byte.old byte.new result }
{
    *byte = u32::from(readers::byte(session, ConceptName(name)));
    0
}

// Copies the file held on a side to the start of the output: its length.
pub fn berrytick_session_file(
    session: &[u8; Layout::LENGTH],
    side: usize,
    output: &mut [u8; HeldFile::LENGTH],
    length: &mut u32,
) -> u32
    ensures { FileReturns session.now side output.old output.new length.old length.new result }
{
    *length = readers::copy_file(session, side, output) as u32;
    0
}

// Copies the signature's bytes to the start of the output: how many these are.
pub fn berrytick_session_signature(
    session: &[u8; Layout::LENGTH],
    output: &mut [u8; Session::SIGNATURE],
    length: &mut u32,
) -> u32
    ensures { SignatureReturns session.now output.old output.new length.old length.new result }
{
    *length = readers::copy_signature(session, output) as u32;
    0
}
