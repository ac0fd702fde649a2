// A session read from its bytes.
ghost use Rattle.std.specs.Prelude.{◌≡◌, ◌+◌, ◌≤◌, length};
ghost use Rattle.release.specs.Files.{number};
ghost use Rattle.splicing.specs.Places.{most_bytes};
ghost use Rattle.session_bytes.specs.Layout.{session_in};

use crate::Layout;
use editing::{HeldFile, Session};

// Four bytes from a place on as a number, low byte first.
fn length_at(bytes: &[u8], at: usize) -> usize
    requires { at + 4 ≤ length bytes.now }
    ensures { result ≡ number 4 bytes.now at }
{
    let length = u32::from_le_bytes([bytes[at], bytes[at + 1], bytes[at + 2], bytes[at + 3]]);
    length as usize
}

fn held(content: &[u8], long: usize) -> HeldFile
    requires { length content.now ≡ most_bytes }
    ensures { result ≡ record { bytes = content.now; length = long } }
{
    let mut bytes = [0u8; HeldFile::LENGTH];
    bytes.copy_from_slice(content);
    HeldFile {
        bytes,
        length: long,
    }
}

// The session that the bytes are.
#[tactic(auto, unfolding(crate::specs::Layout::session_in))]
pub fn read_session(bytes: &[u8; Layout::LENGTH]) -> Session
    ensures { result ≡ session_in bytes.now }
{
    let mut signature = [0u8; Session::SIGNATURE];
    signature.copy_from_slice(&bytes[Layout::SIGNATURE..Layout::RESULT]);
    let mut result = [0u8; Session::RESULT];
    result.copy_from_slice(&bytes[Layout::RESULT..]);
    Session {
        first: held(&bytes[Layout::FIRST..Layout::SECOND], length_at(bytes, 0)),
        second: held(
            &bytes[Layout::SECOND..Layout::SIGNATURE],
            length_at(bytes, 4),
        ),
        signature,
        result,
    }
}
