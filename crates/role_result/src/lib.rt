// The role result of a comparison: a byte for each two roles, r at row r and s at column s, that says whether r lies under s by the first
// release and not by the second. It is found from the tables of the two releases and the signature alone, and needs no work memory.
#![tactic(auto)]

ghost use Rattle.std.specs.Prelude.{◌≤◌};
ghost use Rattle.release.specs.Files.{most_roles};

use release::RoleIndex;
use release::roles::RoleSet;
use release::terminology::Terminology;
use signature::LentSignature;

// Two releases with the same numbers of names and roles, and a signature for them.
#[derive(Clone, Copy, Debug, PartialEq, Eq)]
pub struct RoleComparison<'a> {
    pub signature: LentSignature<'a>,
    pub first: Terminology<'a>,
    pub second: Terminology<'a>,
    pub ghost few: { signature.roles ≤ most_roles },
}

impl<'a> RoleComparison<'a> {
    ghost use Rattle.std.specs.Prelude.{◌≡◌, true, ◌*◌, ◌≤◌, ◌<◌, length};
    ghost use Rattle.role_result.specs.Pairs.{BothRead, LostUnder, is_chosen, ColumnWritten, RolesReported};

    // The roles that lie under a role by the first release and not by the second. Without pairs there is none.
    fn lost_under(&self, upper: RoleIndex) -> RoleSet
        ensures { LostUnder self.now upper.0 result.0 }
    {
        self.first.under(upper).without(self.second.under(upper))
    }

    // Column s, for a role of the signature: 1 in the rows of the roles of the signature that are lost under it, the other rows as they were.
    fn write_column(&self, role_result: &mut [u8], upper: RoleIndex)
        requires room { self.now.signature.roles * self.now.signature.roles ≤ length role_result.old }
        requires is_chosen { is_chosen self.now upper.0 ≡ true }
        ensures { ColumnWritten self.now upper.0 self.now.signature.roles role_result.old role_result.new }
    {
        let roles = self.signature.roles;
        let lost = self.lost_under(upper);
        if lost.is_empty() {
            return;
        }
        for lower in 0..roles as u8 {
            let role = RoleIndex(lower);
            if lost.has(role) && self.signature.has_role(role) {
                role_result[usize::from(lower) * roles + usize::from(upper.0)] = 1;
            }
        }
    }

    // Writes the bytes of all pairs of roles, row after row. Where nothing is lost, and so without pairs, this is little more than to clear them.
    pub fn write_role_result(&self, role_result: &mut [u8])
        requires read { BothRead self.now }
        requires room { self.now.signature.roles * self.now.signature.roles ≤ length role_result.old }
        ensures { RolesReported self.now role_result.old role_result.new }
    {
        let roles = self.signature.roles;
        marks::clear(role_result, roles * roles);
        for upper in 0..roles as u8 {
            let role = RoleIndex(upper);
            if self.signature.has_role(role) {
                self.write_column(role_result, role);
            }
        }
    }
}
