// A signature as a caller lends it.
ghost use Rattle.std.specs.Prelude.{◌≡◌, ◌+◌, ◌≤◌, length};
ghost use Rattle.signature.specs.Bytes.{signature_of};

use release::{ConceptName, RoleIndex};

// The bytes of a signature for a release of these numbers of names and roles: names first, then roles.
#[derive(Clone, Copy, Debug, PartialEq, Eq)]
pub struct LentSignature<'a> {
    pub bytes: &'a [u8],
    pub names: usize,
    pub roles: usize,
    ghost long: { names + roles ≤ length bytes.now },
}

impl<'a> LentSignature<'a> {
    pub fn has_name(&self, name: ConceptName) -> bool
        ensures { result ≡ (signature_of self.now.names self.now.roles self.now.bytes.now).has_name name.0 }
    {
        name.0 < self.names && self.bytes[name.0] == 1
    }

    pub fn has_role(&self, role: RoleIndex) -> bool
        ensures { result ≡ (signature_of self.now.names self.now.roles self.now.bytes.now).has_role role.0 }
    {
        let role = usize::from(role.0);
        role < self.roles && self.bytes[self.names + role] == 1
    }
}
