// A signature's bytes: lent by a caller, or built a name or a role at a time. Yes and no are the bytes 1 and 0, since C lends them so.
#![tactic(auto)]

ghost use Rattle.std.specs.Prelude.{◌≡◌};
ghost use Rattle.release.specs.Refusals.{told, answer};
ghost use Rattle.signature.specs.Bytes.{signature_fault, signature_refusal};
ghost use Rattle.signature.specs.Building.{empty_signature, chosen, with_name, with_role, byte_at};

pub use crate::lent::LentSignature;
use release::{ConceptName, Refusal, Release, RoleName};

mod lent;

// A signature that a caller builds: its numbers of names and roles, and its bytes, names first, then roles. The bytes are an array with the
// numbers beside it, since it is built and handed over by value and there is no heap.
#[derive(Clone, Copy, Debug, PartialEq, Eq)]
pub struct Signature {
    pub names: u16,
    pub roles: u8,
    pub bytes: [u8; Signature::LENGTH],
}

impl Signature {
    // As many bytes as the largest release has names and roles.
    pub const LENGTH: usize = Release::NAMES + Release::ROLES;

    // No name and no role is chosen. `as` is proved to keep the numbers; `try_from` would test them once more.
    pub fn empty(names: usize, roles: usize) -> Self
        ensures { result ≡ empty_signature names roles }
    {
        Signature {
            names: names.min(Release::NAMES) as u16,
            roles: roles.min(Release::ROLES) as u8,
            bytes: [0; Signature::LENGTH],
        }
    }

    // The byte at a place becomes 1. Past the bytes, where only a struct that a caller filled by hand can lead, nothing does.
    fn choose(&mut self, place: usize)
        ensures { self.new ≡ chosen self.old place }
    {
        if place < Signature::LENGTH {
            self.bytes[place] = 1;
        }
    }

    // The signature with one name more.
    pub fn with_name(mut self, name: ConceptName) -> Self
        ensures { result ≡ with_name self name.0 }
    {
        if name.0 < usize::from(self.names) {
            self.choose(name.0);
        }
        self
    }

    // The signature with one role more.
    pub fn with_role(mut self, role: RoleName) -> Self
        ensures { result ≡ with_role self role.0 }
    {
        if role.0 < usize::from(self.roles) {
            let place = usize::from(self.names) + role.0;
            self.choose(place);
        }
        self
    }

    // The signature's byte at a place, 0 past its names and roles.
    pub fn byte(self, place: usize) -> u8
        ensures { result ≡ byte_at self place }
    {
        let length = usize::from(self.names) + usize::from(self.roles);
        if place < length.min(Signature::LENGTH) {
            self.bytes[place]
        } else {
            0
        }
    }
}

// Why a signature is refused: its length is not that of the names and roles, or a byte is above 1.
#[derive(Clone, Copy, Debug, PartialEq, Eq)]
pub enum SignatureRefusal {
    WrongLength,
    WrongByte,
}

impl Refusal for SignatureRefusal {
    ghost numbers = { signature_refusal };

    fn number(self) -> u8 {
        match self {
            SignatureRefusal::WrongLength => 17,
            SignatureRefusal::WrongByte => 18,
        }
    }

    // It concerns no release.
    fn side(self) -> u8 {
        0
    }
}

// The refusal of a signature for a release of these numbers of names and roles. Its length is compared by parts, since the sum
// of any two numbers may not fit. The bytes and the numbers are no `LentSignature` here, of which it is known that it is long enough.
pub fn signature_fault(signature: &[u8], names: usize, roles: usize) -> Result<(), SignatureRefusal>
    ensures { told signature_refusal result ≡ answer 0 (signature_fault names roles signature.now) tt }
{
    if signature.len().checked_sub(names) != Some(roles) {
        return Err(SignatureRefusal::WrongLength);
    }
    if !signature.iter().all(|byte| *byte <= 1) {
        return Err(SignatureRefusal::WrongByte);
    }
    Ok(())
}
