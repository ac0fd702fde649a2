// Numbers put into the output, each in the bytes of a version's names.
ghost use Rattle.release.specs.Versions.{width};
ghost use Rattle.rewriting.specs.Bytes.{number_bytes};
ghost use Rattle.output.specs.Places.{Put};

use output::put_byte;
use release::number::Version;

// The low byte first.
pub fn put_number(output: &mut [u8], at: usize, version: Version, number: usize) -> usize
    ensures { Put output.old at (number_bytes (width version) number) output.new result }
{
    let [low, high, ..] = number.to_le_bytes();
    let next = put_byte(output, at, low);
    if version.width() == 1 {
        return next;
    }
    put_byte(output, next, high)
}
