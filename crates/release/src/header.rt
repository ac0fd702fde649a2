// The start of the file: its mark, its version and its counts.
ghost use Rattle.std.specs.Prelude.{◌≡◌};
ghost use Rattle.release.specs.Files.{header_fault};
ghost use Rattle.release.specs.Readings.{counts_in};
ghost use Rattle.release.specs.Refusals.{file_refusal, told, answer};
ghost use Rattle.release.specs.Versions.{said_version};

use crate::number::Version;
use crate::refusals::FileRefusal;
use crate::{Counts, Release};

// The counts that a header without fault holds, or the header's first refusal.
pub fn read_header(file: &[u8]) -> Result<Counts, FileRefusal>
    ensures { told file_refusal result ≡ answer 1 (header_fault file.now) (counts_in file.now) }
{
    if file.len() < Version::One.header_length() {
        return Err(FileRefusal::ShortFile);
    }
    if !file.starts_with(&Release::MARK) {
        return Err(FileRefusal::NoMark);
    }
    let version = Version::try_from(Version::Two.number(file, 3))?;
    if file.len() < version.header_length() {
        return Err(FileRefusal::ShortFile);
    }
    let names = version.names(file);
    if version.most_names() < names {
        return Err(FileRefusal::ManyNames);
    }
    let roles = version.roles(file);
    if Release::ROLES < roles {
        return Err(FileRefusal::ManyRoles);
    }
    let axioms = version.axioms(file);
    if names < axioms {
        return Err(FileRefusal::ManyAxioms);
    }
    Ok(Counts {
        names,
        roles,
        axioms,
    })
}

// The version that a file says, whatever follows it: 0 where the file is shorter than any header, or has no mark.
pub fn said_version(file: &[u8]) -> usize
    ensures { result ≡ said_version file.now }
{
    if file.len() < Version::One.header_length() {
        return 0;
    }
    if file.starts_with(&Release::MARK) {
        return Version::Two.number(file, 3);
    }
    0
}
