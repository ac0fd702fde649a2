// The question how two concepts lie by a release: which of them lies below the other.
// The file, the texts of both concepts and the work memory stand in separate parameters, as C lends them.
#![tactic(auto)]

ghost use Rattle.classification.specs.Inclusions as inclusions;
ghost use Rattle.question.specs.Asking.{AskedAs};
ghost use Rattle.question.specs.Answering.{ToAnswer, Answered};

use classification::classify;
use marks::{Square, clear, size, work_length};
use outline::is_text;
use points::Classified;
pub use position::Position;
pub use refusals::AskRefusal;
use release::number::Version;
use release::read_release;
use release::table::Table;
use release::terminology::Terminology;

mod evaluation;
mod position;
mod refusals;

// Classifies. A function of its own, since its arrays, inlined, would stand on the stack beside those of the evaluation.
#[inline(never)]
fn classify_apart(terminology: &Terminology, work: &mut [u8], square: Square)
    requires { inclusions.Unclassified terminology.now.file.now terminology.now.table.now square work.old }
    ensures { inclusions.Classified terminology.now.file.now square work.old work.new }
{
    classify(terminology, work, square);
}

// Answers a question that nothing refuses, in both directions by one square of the inclusions of nodes, which needs a quarter of the work memory.
// The memory is of any content at first, and cleared at the end.
fn answer(terminology: &Terminology, below: &[u8], above: &[u8], work: &mut [u8]) -> Position
    requires { ToAnswer terminology.now below.now above.now work.old }
    ensures { Answered terminology.now.file.now below.now above.now work.old work.new result }
{
    let version = Version::of(terminology.file);
    let names = version.names(terminology.file);
    let square = Square { base: 0, names };
    clear(work, size(names));
    classify_apart(terminology, work, square);
    let classified = Classified {
        terminology: *terminology,
        work,
        square,
    };
    let position = evaluation::position(&classified, version, below, above);
    clear(work, work_length(names));
    position
}

// Asks how two concepts lie by the release of the file: whether below ⊑ above is derivable from it, and whether above ⊑ below is.
pub fn ask_position(
    file: &[u8],
    below: &[u8],
    above: &[u8],
    work: &mut [u8],
) -> Result<Position, AskRefusal>
    ensures { AskedAs file.now below.now above.now work.old work.new result }
{
    let mut table = Table::BLANK;
    let counts = read_release(file, &mut table)?;
    let version = Version::of(file);
    if !is_text(below, version, counts.names, counts.roles) {
        return Err(AskRefusal::WrongBelow);
    }
    if !is_text(above, version, counts.names, counts.roles) {
        return Err(AskRefusal::WrongAbove);
    }
    let short = work.len() < work_length(counts.names);
    if short {
        return Err(AskRefusal::ShortWork);
    }
    let terminology = Terminology {
        file,
        table: &table,
    };
    Ok(answer(&terminology, below, above, work))
}
