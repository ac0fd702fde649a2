// Cases of the programs `station` and `sheet`: first, second, the signature or the signatures one after another, for the sheet
// the word that names the rule; the text that the program prints.
use crate::cases::Case;
use crate::memory::MARK;
use crate::verdict::{Verdict, same_bytes};
use programs::{TEXT_BYTES, WORK_BYTES};

pub(crate) fn station(case: &[u8]) -> Verdict {
    let Case([first, second, signature, text, ..]) = Case::of(case, 4)?;
    let mut work = [MARK; WORK_BYTES];
    let mut output = [0u8; TEXT_BYTES];
    let written = programs::station(first, second, signature, &mut work, &mut output);
    same_text(written, &output, text)
}

pub(crate) fn sheet(case: &[u8]) -> Verdict {
    let Case([first, second, signatures, rule, text, ..]) = Case::of(case, 5)?;
    let mut work = [MARK; WORK_BYTES];
    let mut output = [0u8; TEXT_BYTES];
    let written = programs::sheet(first, second, signatures, rule, &mut work, &mut output);
    same_text(written, &output, text)
}

// Whether what was written at the start of the output is the text.
fn same_text(written: Option<usize>, output: &[u8], text: &[u8]) -> Verdict {
    let printed = written.and_then(|length| output.get(..length));
    same_bytes(printed.unwrap_or(&[]), text)
}
