// Whether a session can be edited, and the comparison of what it holds.
ghost use Rattle.editing.specs.Judging.{HasSession, Judged, Comparable, Compares};

use crate::{EditRefusal, Session, Side};
use meanings::{CompareRefusal, Compared, compare_releases};
use signature::signature_fault;

impl Session {
    // The counts of names and roles, if two releases of version 1 are held that have them, and a signature for them. By `as`: an accepted release
    // of version 1 has few names and roles, so both fit.
    pub(crate) fn counts(&self) -> Option<Compared>
        ensures { HasSession self.now result }
    {
        let first = self.first.counts()?;
        let second = self.second.counts()?;
        if first.names != second.names || first.roles != second.roles {
            return None;
        }
        let signature = &self.signature[..first.names + first.roles];
        match signature_fault(signature, first.names, first.roles) {
            Ok(()) => Some(Compared {
                names: first.names as u16,
                roles: first.roles as u8,
            }),
            Err(_) => None,
        }
    }

    // The side that a number stands for, and the counts, if there is such a side and the session can be edited.
    pub(crate) fn judge(&self, side: usize) -> Result<(Side, Compared), EditRefusal>
        ensures { Judged side self.now result }
    {
        let side = Side::of(side).ok_or(EditRefusal::NotEditable)?;
        let counts = self.counts().ok_or(EditRefusal::NotEditable)?;
        Ok((side, counts))
    }

    // Compares what is held: the result bytes are those of the comparison, or the refusal changes nothing.
    pub(crate) fn compare(
        &mut self,
        counts: Compared,
        work: &mut [u8],
    ) -> Result<Compared, CompareRefusal>
        requires { Comparable self.old counts }
        ensures { Compares self.old self.new work.old work.new result }
    {
        let chosen = usize::from(counts.names) + usize::from(counts.roles);
        // Releases of version 1 have no role pairs, so nobody asks for this.
        let mut role_result = [0u8; Compared::ROLE_RESULT];
        compare_releases(
            self.first.text(),
            self.second.text(),
            &self.signature[..chosen],
            &mut self.result,
            &mut role_result,
            work,
        )
    }
}
