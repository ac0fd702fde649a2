// A file of version 1 held by value. An edited file is written over the bytes of the old one, so that no byte past its end changes.
ghost use Rattle.std.specs.Prelude.{◌≡◌, ◌≤◌, length};
ghost use Rattle.splicing.specs.Places.{most_bytes, file_with, file_without};
ghost use Rattle.editing.specs.Sessions.{text_of, holding, blank};
ghost use Rattle.editing.specs.Judging.{HasCounts, Adds, Withdraws};

use output::put_text;
use release::number::Version;
use release::{Counts, Release, check_release};
use splicing::{put_in, take_out};

// A file at the start of bytes that have room for the longest one. The length may be any: past the bytes there is nothing more of the file.
#[derive(Clone, Copy, Debug, PartialEq, Eq)]
pub struct HeldFile {
    pub bytes: [u8; HeldFile::LENGTH],
    pub length: usize,
}

impl HeldFile {
    // The header, and an axiom for each name: a name, a kind, k and k conjuncts.
    pub const LENGTH: usize = 8 + Release::NAMES_1 * (3 + Release::CONJUNCTS);

    // A file put at the start of bytes that are else 0.
    pub(crate) fn new(file: &[u8]) -> Self
        requires { length file.now ≤ most_bytes }
        ensures { result ≡ holding file.now blank }
    {
        let mut bytes = [0u8; HeldFile::LENGTH];
        let length = put_text(&mut bytes, 0, file);
        HeldFile { bytes, length }
    }

    // The file.
    pub fn text(&self) -> &[u8]
        ensures { result.now ≡ text_of self.now }
    {
        &self.bytes[..self.length.min(HeldFile::LENGTH)]
    }

    // The counts of the release, if one of version 1 is held and its length is that of bytes that are there.
    pub(crate) fn counts(&self) -> Option<Counts>
        ensures { HasCounts self.now result }
    {
        if HeldFile::LENGTH < self.length {
            return None;
        }
        let file = self.text();
        let Ok(counts) = check_release(file) else {
            return None;
        };
        if Version::of(file).width() == 1 {
            return Some(counts);
        }
        None
    }

    // Puts an axiom into the file.
    pub(crate) fn add(&mut self, text: &[u8])
        requires { Adds self.old text.now }
        ensures { self.new ≡ holding (file_with (text_of self.old) text.now) self.old }
    {
        let old = *self;
        self.length = put_in(&mut self.bytes, old.text(), text);
    }

    // Takes a name's axiom out of the file.
    pub(crate) fn withdraw(&mut self, name: usize)
        requires { Withdraws self.old name }
        ensures { self.new ≡ holding (file_without (text_of self.old) name) self.old }
    {
        let old = *self;
        self.length = take_out(&mut self.bytes, old.text(), name);
    }
}
