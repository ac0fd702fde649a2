// The steps made in place: where one is refused, the session is not as it was, and its caller hands back the old one.
ghost use Rattle.std.specs.Prelude.{length};
ghost use Rattle.splicing.specs.Axioms.{inserted, withdrawn};
ghost use Rattle.splicing.specs.Places.{axiom_in};
ghost use Rattle.editing.specs.Sessions.{axioms_on};
ghost use Rattle.editing.specs.Steps.{add_refusals, withdraw_refusals};
ghost use Rattle.editing.specs.Judging.{Tries};

use crate::{EditRefusal, Session};
use meanings::Compared;
use release::{ConceptName, FileRefusal};
use splicing::{has_axiom, read_text};

impl Session {
    // Where a conjunct is defined or the work memory is short, the comparison at the end tells it.
    pub(crate) fn add_axiom(
        &mut self,
        side: usize,
        text: &[u8],
        work: &mut [u8],
    ) -> Result<Compared, EditRefusal>
        ensures { Tries (add_refusals side text.now (length work.old) self.old) side (inserted (axiom_in text.now) (axioms_on side self.old))
            self.old self.new work.old work.new result }
    {
        let (side, counts) = self.judge(side)?;
        let name = match read_text(text, usize::from(counts.names), usize::from(counts.roles)) {
            Ok(name) => name,
            Err(refusal) => return Err(side.refuse(refusal)),
        };
        let mut file = *self.held(side);
        if has_axiom(file.text(), name.0) {
            return Err(EditRefusal::NameTaken(side));
        }
        file.add(text);
        self.hold(side, file);
        let counts = self.compare(counts, work)?;
        Ok(counts)
    }

    pub(crate) fn withdraw_axiom(
        &mut self,
        side: usize,
        name: ConceptName,
        work: &mut [u8],
    ) -> Result<Compared, EditRefusal>
        ensures { Tries (withdraw_refusals side name.0 (length work.old) self.old) side (withdrawn name.0 (axioms_on side self.old))
            self.old self.new work.old work.new result }
    {
        let (side, counts) = self.judge(side)?;
        if usize::from(counts.names) <= name.0 {
            return Err(side.refuse(FileRefusal::WrongName));
        }
        let mut file = *self.held(side);
        if !has_axiom(file.text(), name.0) {
            return Err(EditRefusal::NameFree(side));
        }
        file.withdraw(name.0);
        self.hold(side, file);
        let counts = self.compare(counts, work)?;
        Ok(counts)
    }
}
