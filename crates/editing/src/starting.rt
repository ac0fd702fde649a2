// A session started.
ghost use Rattle.std.specs.Prelude.{◌≡◌, ◌≤◌, length};
ghost use Rattle.release.specs.Refusals.{file_refusal, told};
ghost use Rattle.splicing.specs.Places.{most_bytes};
ghost use Rattle.editing.specs.Sessions.{signature_room};
ghost use Rattle.editing.specs.Starting.{other_version, checked_as1, started, empty_session};
ghost use Rattle.editing.specs.Judging.{Opens};

use crate::{EditRefusal, HeldFile, Session};
use meanings::{Compared, agree};
use output::put_text;
use release::header::said_version;
use release::{Counts, FileRefusal, Release, check_release};
use signature::signature_fault;

// Whether a file says another version than 1.
fn has_other_version(file: &[u8]) -> bool
    ensures { result ≡ other_version file.now }
{
    let version = said_version(file);
    version != 0 && version != 1
}

// Checks a release that is to have version 1.
fn check_as_1(file: &[u8]) -> Result<Counts, FileRefusal>
    ensures { told file_refusal result ≡ checked_as1 file.now }
{
    if has_other_version(file) {
        return Err(FileRefusal::WrongVersion);
    }
    check_release(file)
}

impl Session {
    // Two files and a signature, and no result yet.
    fn of(first: &[u8], second: &[u8], signature: &[u8]) -> Self
        requires { (length first.now ≤ most_bytes) × ((length second.now ≤ most_bytes) × (length signature.now ≤ signature_room)) }
        ensures { result ≡ started first.now second.now signature.now }
    {
        let mut bytes = [0u8; Session::SIGNATURE];
        put_text(&mut bytes, 0, signature);
        Session {
            first: HeldFile::new(first),
            second: HeldFile::new(second),
            signature: bytes,
            result: [0; Session::RESULT],
        }
    }

    // The session of two releases and a signature with no names and no roles.
    #[tactic(auto, unfolding(crate::specs::Starting::empty_session))]
    pub fn empty() -> Self
        ensures { result ≡ empty_session }
    {
        let [first, second, third] = Release::MARK;
        let file = [first, second, third, 1, 0, 0, 0, 0];
        Session::of(&file, &file, &[])
    }

    // Holds two releases and a signature, and compares them. Where that is refused, its caller hands back the empty session.
    pub(crate) fn open(
        &mut self,
        first: &[u8],
        second: &[u8],
        signature: &[u8],
        work: &mut [u8],
    ) -> Result<Compared, EditRefusal>
        ensures { Opens first.now second.now signature.now self.new work.old work.new result }
    {
        let counts = agree(check_as_1(first), check_as_1(second))?;
        signature_fault(
            signature,
            usize::from(counts.names),
            usize::from(counts.roles),
        )?;
        *self = Session::of(first, second, signature);
        let counts = self.compare(counts, work)?;
        Ok(counts)
    }
}
