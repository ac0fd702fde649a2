// Cases of what a session tells: a session; n, m, first, second, signature and result as its readers tell them. Any other side has no file.
use crate::cases::{Case, number_in};
use crate::memory::MARK;
use crate::sessions::{Lent, given, lent};
use crate::verdict::{Verdict, What, same, same_bytes};
use editing::{HeldFile, Session};
use release::ConceptName;
use session_bytes::readers;

pub(crate) fn judge(case: &[u8]) -> Verdict {
    let case = Case::of(case, 12)?;
    let Case(
        [
            _,
            _,
            _,
            _,
            _,
            _,
            names,
            roles,
            first,
            second,
            signature,
            result,
            ..
        ],
    ) = case;
    let session = lent(&given(case));
    same(What::Names, readers::names(&session), number_in(names))?;
    same(What::Roles, readers::roles(&session), number_in(roles))?;
    same_file(&session, 1, first)?;
    same_file(&session, 2, second)?;
    same_file(&session, 0, &[])?;
    same_file(&session, 257, &[])?;
    let mut copy = [MARK; Session::SIGNATURE];
    let length = readers::copy_signature(&session, &mut copy);
    same_bytes(copy.get(..length).unwrap_or(&[]), signature)?;
    for (name, byte) in result.iter().enumerate() {
        same(
            What::Byte(name),
            readers::byte(&session, ConceptName(name)),
            *byte,
        )?;
    }
    let past = ConceptName(number_in(names));
    same(What::Byte(past.0), readers::byte(&session, past), 0u8)
}

fn same_file(session: &Lent, side: usize, expected: &[u8]) -> Verdict {
    let mut copy = [MARK; HeldFile::LENGTH];
    let length = readers::copy_file(session, side, &mut copy);
    same_bytes(copy.get(..length).unwrap_or(&[]), expected)
}
