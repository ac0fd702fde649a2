// A session written as its bytes.
ghost use Rattle.std.specs.Prelude.{◌≡◌};
ghost use Rattle.rewriting.specs.Bytes.{number_bytes};
ghost use Rattle.session_bytes.specs.Layout.{Writes};

use crate::Layout;
use editing::Session;
use output::put_text;

// A number in four bytes, low byte first: a length takes less in a session that can be edited.
fn four_bytes(number: usize) -> [u8; 4]
    ensures { result ≡ number_bytes 4 number }
{
    let [first, second, third, fourth, ..] = number.to_le_bytes();
    [first, second, third, fourth]
}

// Writes the bytes of a session.
pub fn write_session(session: &Session, bytes: &mut [u8; Layout::LENGTH])
    ensures { Writes session.now bytes.new }
{
    let second_length = put_text(bytes, 0, &four_bytes(session.first.length));
    let first = put_text(bytes, second_length, &four_bytes(session.second.length));
    let second = put_text(bytes, first, &session.first.bytes);
    let signature = put_text(bytes, second, &session.second.bytes);
    let result = put_text(bytes, signature, &session.signature);
    put_text(bytes, result, &session.result);
}
