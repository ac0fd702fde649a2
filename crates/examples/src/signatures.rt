// Cases of signatures that are built step by step: the names and roles of the empty signature; the
// steps, nine bytes each, `n` or `r` and a number of eight bytes; names and roles of the outcome; its
// bytes from place 0 on, with some zeros after them; one place more, with the byte that stands there.
use crate::cases::{Case, number_in};
use crate::verdict::{Verdict, What, same};
use release::{ConceptName, RoleName};
use signature::Signature;

// The bytes of a step.
const STEP: usize = 9;

pub(crate) fn judge(case: &[u8]) -> Verdict {
    let case = Case::of(case, 8)?;
    let Case([names, roles, steps, ..]) = case;
    let Case([_, _, _, built_names, built_roles, bytes, place, byte, ..]) = case;
    let mut built = Signature::empty(number_in(names), number_in(roles));
    for step in steps.chunks_exact(STEP) {
        built = wider(built, step);
    }
    same(What::Names, built.names, number_in(built_names))?;
    same(What::Roles, built.roles, number_in(built_roles))?;
    for (place, expected) in bytes.iter().enumerate() {
        same(What::Byte(place), built.byte(place), *expected)?;
    }
    let place = number_in(place);
    same(What::Byte(place), built.byte(place), number_in(byte))
}

// The data files have no step but `n` and `r`, so any letter but `n` is taken for `r`: a case has no way to tell that it is wrong.
fn wider(built: Signature, step: &[u8]) -> Signature {
    let Some((kind, number)) = step.split_first() else {
        return built;
    };
    let number = number_in(number);
    if *kind == b'n' {
        return built.with_name(ConceptName(number));
    }
    built.with_role(RoleName(number))
}
