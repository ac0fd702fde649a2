// What a session tells of itself. One that cannot be edited has nothing to tell: no names, no roles, no file and no signature.
ghost use Rattle.std.specs.Prelude.{◌≡◌};
ghost use Rattle.editing.specs.Readers.{names_read, roles_read, byte_read, file_read, signature_read};

use crate::Session;
use release::ConceptName;

impl Session {
    // n, the number of names.
    #[tactic(auto, unfolding(crate::specs::Readers::names_read))]
    pub fn names(&self) -> usize
        ensures { result ≡ names_read self.now }
    {
        self.counts().map_or(0, |counts| usize::from(counts.names))
    }

    // m, the number of roles.
    #[tactic(auto, unfolding(crate::specs::Readers::roles_read))]
    pub fn roles(&self) -> usize
        ensures { result ≡ roles_read self.now }
    {
        self.counts().map_or(0, |counts| usize::from(counts.roles))
    }

    // The result byte of a name, 0 where there is no such name.
    #[tactic(auto, using(crate::proofs::Readers::names_few), unfolding(crate::specs::Readers::byte_read))]
    pub fn byte(&self, name: ConceptName) -> u8
        ensures { result ≡ byte_read self.now name.0 }
    {
        if name.0 < self.names() {
            return self.result[name.0];
        }
        0
    }

    // The file held on a side.
    #[tactic(auto, unfolding(crate::specs::Readers::file_read))]
    pub fn file(&self, side: usize) -> &[u8]
        ensures { result.now ≡ file_read side self.now }
    {
        match self.judge(side) {
            Ok((side, _)) => self.held(side).text(),
            Err(_) => &[],
        }
    }

    // The signature's bytes, names first, then roles.
    #[tactic(auto, unfolding(crate::specs::Readers::signature_read))]
    pub fn signature(&self) -> &[u8]
        ensures { result.now ≡ signature_read self.now }
    {
        match self.counts() {
            Some(counts) => {
                &self.signature[..usize::from(counts.names) + usize::from(counts.roles)]
            }
            None => &[],
        }
    }
}
