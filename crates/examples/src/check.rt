// Cases of Check: file; number, side, names, roles, axioms.
use crate::cases::{Case, number_in};
use crate::verdict::{Verdict, What, refusal_in, same, same_outcome};
use release::check_release;

pub(crate) fn judge(case: &[u8]) -> Verdict {
    let Case([file, number, side, names, roles, axioms, ..]) = Case::of(case, 6)?;
    let expected = refusal_in(number, side);
    let answer = check_release(file);
    // Only here is an answer that should have been refused told as accepted; the other calls tell the number of the refusal expected.
    same(What::Accepted, answer.is_ok(), expected.is_none())?;
    if let Some(counts) = same_outcome(answer, expected)? {
        same(What::Names, counts.names, number_in(names))?;
        same(What::Roles, counts.roles, number_in(roles))?;
        same(What::Axioms, counts.axioms, number_in(axioms))?;
    }
    Ok(())
}
