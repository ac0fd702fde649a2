// The result bytes, by the marks.
ghost use Rattle.std.specs.Prelude.{◌≡◌, ◌≤◌, ◌<◌, length};
ghost use Rattle.el.specs.Answers.{byte_of};
ghost use Rattle.comparison.specs.Bytes.{Readable, ByteAt, Written};

use layout::Layout;
use release::ConceptName;

// The byte of a name of the signature: 1 for a left witness, 2 for a right one, 3 for both. A number, since C reads the result bytes.
fn byte(left: bool, right: bool) -> u8
    ensures { result ≡ byte_of left right }
{
    match (left, right) {
        (false, false) => 0,
        (true, false) => 1,
        (false, true) => 2,
        (true, true) => 3,
    }
}

// The byte of a name: 0 outside the signature.
fn byte_of(
    signature: &[u8],
    work: &[u8],
    forward: Layout,
    backward: Layout,
    name: ConceptName,
) -> u8
    requires readable { Readable signature.now forward backward work.now }
    requires name_lt_names { name.0 < forward.names }
    ensures { ByteAt signature.now forward backward work.now name.0 result }
{
    if forward.has_name(signature, name.0) {
        let left = forward.mark_square().is_marked(work, name.0, name.0);
        let right = backward.mark_square().is_marked(work, name.0, name.0);
        return byte(left, right);
    }
    0
}

// Writes the bytes of all names.
pub fn write_bytes(
    signature: &[u8],
    work: &[u8],
    result_bytes: &mut [u8],
    forward: Layout,
    backward: Layout,
)
    requires readable { Readable signature.now forward backward work.now }
    requires names_in_bounds { forward.names ≤ length result_bytes.old }
    ensures { Written signature.now forward backward work.now forward.names result_bytes.old result_bytes.new }
{
    for (name, byte) in result_bytes[..forward.names].iter_mut().enumerate() {
        *byte = byte_of(signature, work, forward, backward, ConceptName(name));
    }
}
