// The role pairs of a file, read into the table of what lies under what.
ghost use Rattle.std.specs.Prelude.{◌≡◌, ◌≤◌, length};
ghost use Rattle.release.specs.Entries.{pair_reading};
ghost use Rattle.release.specs.Refusals.{file_refusal, told};
ghost use Rattle.release.specs.Roles.{pair_of};
ghost use Rattle.release.specs.Tables.{PairsReady, PairsRead};

use crate::Counts;
use crate::axiom::Source;
use crate::number::Version;
use crate::refusals::FileRefusal;
use crate::roles::{RolePair, RoleTable};

impl<'a> Source<'a> {
    // The pair at `at`, which does not stand before `least`.
    fn read_pair(&self, at: usize, least: RolePair) -> Result<RolePair, FileRefusal>
        requires { at ≤ length self.now.file.now }
        ensures { told file_refusal result ≡ pair_reading self.now.counts.roles (pair_of least) self.now.file.now at }
    {
        let lower = self.read_role(at)?;
        let upper = self.read_role(at + 1)?;
        let pair = RolePair { lower, upper };
        if pair.precedes(least) {
            return Err(FileRefusal::PairsNotRising);
        }
        Ok(pair)
    }
}

// Reads the pairs of a file into the table, up to the first refusal among them. Each role lies under itself, too.
pub fn read_pairs(file: &[u8], roles: &mut RoleTable, counts: Counts) -> Result<(), FileRefusal>
    requires { PairsReady counts.roles file.now }
    ensures { PairsRead counts.roles file.now roles.new result }
{
    let version = Version::of(file);
    let source = Source {
        file,
        version,
        counts,
    };
    *roles = RoleTable::OWN;
    let first = version.header_length();
    let mut least = RolePair::LEAST;
    for index in 0..version.pair_count(file) {
        let pair = source.read_pair(first + 2 * index, least)?;
        roles.take_in(pair);
        least = pair.after();
    }
    Ok(())
}
