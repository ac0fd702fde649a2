// Where to look for the restrictions of the second release with a role, by hints behind the square of marks: a row for each role. Nothing is said
// of what they hold, so whoever reads a name from them tests what it asks of it.
ghost use Rattle.std.specs.Prelude.{◌<◌};
ghost use Rattle.marks.specs.Squares.{Area, Kept};
ghost use Rattle.layout.specs.Layouts.{mark_square};

use layout::Given;

// Which of the four squares behind the rows of marks it is; the first is for what was seen of a row.
pub const ROLES: usize = 2;

// Notes a name by its role if it is a restriction. Where there are fewer names than roles, a role may have no row, and nothing is noted of it.
fn list_restriction(given: &Given, work: &mut [u8], name: usize)
    requires area { Area (mark_square given.now.layout) work.old }
    requires name_lt_names { name < given.now.layout.names }
    ensures { Kept (mark_square given.now.layout) work.old work.new }
{
    let row = usize::from(given.second.role(name).0);
    if given.second.is_restriction(name) && row <= given.layout.names {
        given.layout.mark_square().put_hint(work, ROLES, row, name);
    }
}

// Whether some edge has more than one role: only for such edges is it asked what was noted.
fn has_several(given: &Given) -> bool {
    for x in 0..given.layout.names {
        let roles = given.edges[x];
        if let Some(first) = roles.next(0) {
            if roles.next(first.0 + 1).is_some() {
                return true;
            }
        }
    }
    false
}

// Notes each restriction of the second release by its role.
fn list_restrictions(given: &Given, work: &mut [u8])
    requires { Area (mark_square given.now.layout) work.old }
    ensures { Kept (mark_square given.now.layout) work.old work.new }
{
    for name in 0..given.layout.names {
        list_restriction(given, work, name);
    }
}

// The same, where it is asked for.
pub fn list(given: &Given, work: &mut [u8])
    requires { Area (mark_square given.now.layout) work.old }
    ensures { Kept (mark_square given.now.layout) work.old work.new }
{
    if has_several(given) {
        list_restrictions(given, work);
    }
}
