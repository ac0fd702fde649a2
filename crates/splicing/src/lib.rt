// A file of version 1 with an axiom put into it or taken out of it. The edited file is written over a copy of the file, so that nothing past
// its end changes.
#![tactic(auto)]

ghost use Rattle.std.specs.Prelude.{◌≡◌, ◌≤◌};
ghost use Rattle.release.specs.Files.{axioms_of};
ghost use Rattle.release.specs.Refusals.{file_refusal, told, answer};
ghost use Rattle.output.specs.Places.{Put};
ghost use Rattle.splicing.specs.Axioms.{has};
ghost use Rattle.splicing.specs.Places.{IsFile, text_fault, name_in, place_of, file_with, file_without, PutsIn, TakesOut};

use output::put_text;
use release::number::Version;
use release::{ConceptName, Counts, FileRefusal, Source};

// Reads bytes that are to be one axiom over these names and roles: its left name, or the first refusal. They meet no other order than
// their own.
pub fn read_text(text: &[u8], names: usize, roles: usize) -> Result<ConceptName, FileRefusal>
    ensures { told file_refusal result ≡ answer 1 (text_fault names roles text.now) (name_in text.now) }
{
    let source = Source {
        file: text,
        version: Version::One,
        counts: Counts {
            names,
            roles,
            axioms: 1,
        },
    };
    let (entry, next) = source.read_axiom(0, 0)?;
    if next.at < text.len() {
        return Err(FileRefusal::BytesLeftOver);
    }
    Ok(entry.left)
}

// The place of the first axiom whose name is not below the given one, or the file's end. The place is kept by hand: an axiom says where the
// next one starts, so no iterator gives it.
fn place(file: &[u8], name: usize) -> usize
    requires { IsFile file.now }
    ensures { result ≡ place_of name file.now }
{
    let mut at = Version::One.header_length();
    for _axiom in 0..Version::One.axioms(file) {
        if name <= usize::from(file[at]) {
            return at;
        }
        at += Version::One.axiom_length(file, at);
    }
    at
}

// Whether a name has an axiom: its place and that of the next name differ.
pub fn has_axiom(file: &[u8], name: usize) -> bool
    requires { IsFile file.now × (name ≤ 255) }
    ensures { result ≡ has name (axioms_of file.now) }
{
    place(file, name) != place(file, name + 1)
}

// Writes the file with one axiom more over a copy of it: the count, the axiom at its place, what stood from there on. Answers its length.
pub fn put_in(output: &mut [u8], file: &[u8], text: &[u8]) -> usize
    requires { PutsIn file.now output.old text.now }
    ensures { Put output.old 0 (file_with file.now text.now) output.new result }
{
    let at = place(file, usize::from(text[0]));
    output[7] = file[7] + 1;
    let next = put_text(output, at, text);
    put_text(output, next, &file[at..])
}

// Writes the file without one name's axiom over a copy of it: the count, what stood after the axiom. Answers its length.
pub fn take_out(output: &mut [u8], file: &[u8], name: usize) -> usize
    requires { TakesOut file.now output.old name }
    ensures { Put output.old 0 (file_without file.now name) output.new result }
{
    let at = place(file, name);
    let next = place(file, name + 1);
    output[7] = file[7] - 1;
    put_text(output, at, &file[next..])
}
