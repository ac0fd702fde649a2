// A role that is asked for in the second release, with the roles that serve for it. They are taken from the table of roles once, before a
// loop over names; the role itself is what contracts speak of.
ghost use Rattle.std.specs.Prelude.{◌≡◌, false, ◌<◌};
ghost use Rattle.release.specs.Files.{most_roles};
ghost use Rattle.release.specs.Tables.{role_at, serves_at, SuccessorOf, HasRow};
ghost use Rattle.forward.specs.Asking.{Asks, SmallRole, Idle};

use release::RoleIndex;
use release::roles::RoleSet;
use release::terminology::Terminology;

#[derive(Clone, Copy, Debug, PartialEq, Eq)]
pub struct Asked {
    pub role: RoleIndex,
    pub serving: RoleSet,
}

impl Asked {
    pub fn of(second: &Terminology, role: RoleIndex) -> Asked
        requires { role.0 < most_roles }
        ensures { (result.role ≡ role) × Asks second.now.table.now result }
    {
        Asked {
            role,
            serving: second.under(role),
        }
    }

    // Whether the role of a name can serve, as far as a bit tells, whatever that is of a name without a restriction: three instructions.
    pub fn may_serve(self, second: &Terminology, name: usize) -> bool
        requires asks { Asks second.now.table.now self }
        requires row { HasRow name }
        requires small { SmallRole second.now.table.now name }
        ensures { result ≡ false → Idle second.now.table.now self name }
    {
        (self.serving.0 >> (second.role(name).0 % 32)) % 2 == 1
    }

    // Whether the role of a restriction serves.
    pub fn serves(self, second: &Terminology, name: usize) -> bool
        requires asks { Asks second.now.table.now self }
        requires row { HasRow name }
        requires small { role_at second.now.table.now name < most_roles }
        ensures { result ≡ serves_at second.now.table.now (role_at second.now.table.now name) self.role.0 }
    {
        self.serving.has_small(second.role(name))
    }

    // The filler of a name's axiom where that is a restriction with a role that serves.
    pub fn successor(self, second: &Terminology, name: usize) -> Option<usize>
        requires asks { Asks second.now.table.now self }
        requires row { HasRow name }
        requires small { SmallRole second.now.table.now name }
        ensures { SuccessorOf second.now.table.now name self.role.0 result }
    {
        if second.is_restriction(name) && self.serves(second, name) {
            return Some(second.filler(name));
        }
        None
    }
}
