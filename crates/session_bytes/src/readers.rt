// What a lent session tells: as the readers of the session that its bytes are.
ghost use Rattle.std.specs.Prelude.{◌≡◌};
ghost use Rattle.editing.specs.Readers.{names_read, roles_read, byte_read, file_read, signature_read};
ghost use Rattle.session_bytes.specs.Layout.{session_in, Copies};

use crate::Layout;
use crate::reading::read_session;
use editing::{HeldFile, Session};
use output::put_text;
use release::ConceptName;

// n, the number of names.
pub fn names(session: &[u8; Layout::LENGTH]) -> usize
    ensures { result ≡ names_read (session_in session.now) }
{
    let held = read_session(session);
    held.names()
}

// m, the number of roles.
pub fn roles(session: &[u8; Layout::LENGTH]) -> usize
    ensures { result ≡ roles_read (session_in session.now) }
{
    let held = read_session(session);
    held.roles()
}

// The result byte of a name.
pub fn byte(session: &[u8; Layout::LENGTH], name: ConceptName) -> u8
    ensures { result ≡ byte_read (session_in session.now) name.0 }
{
    let held = read_session(session);
    held.byte(name)
}

// Copies the file held on a side to the start of the output, and answers its length.
pub fn copy_file(
    session: &[u8; Layout::LENGTH],
    side: usize,
    output: &mut [u8; HeldFile::LENGTH],
) -> usize
    ensures { Copies (file_read side (session_in session.now)) output.old output.new result }
{
    let held = read_session(session);
    put_text(output, 0, held.file(side))
}

// Copies the signature's bytes to the start of the output, and answers how many these are.
pub fn copy_signature(
    session: &[u8; Layout::LENGTH],
    output: &mut [u8; Session::SIGNATURE],
) -> usize
    ensures { Copies (signature_read (session_in session.now)) output.old output.new result }
{
    let held = read_session(session);
    put_text(output, 0, held.signature())
}
