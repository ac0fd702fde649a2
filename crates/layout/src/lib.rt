// What a comparison of two releases reads: the two terminologies, the inclusions of both, the marks so far, and what is handed on of the
// signature.
#![tactic(auto)]

ghost use Rattle.std.specs.Prelude.{◌≤◌, length};
ghost use Rattle.release.specs.Files.{most_names};
ghost use Rattle.layout.specs.Tables.{Rowed, Edges};

use marks::Square;
use release::roles::RoleSet;
use release::terminology::Terminology;

pub mod edges;

// The numbers of names and roles, and where three squares begin in the work memory: the inclusions of the first release, those
// of the second, and the marks of the comparison. Three places, since three squares would hold the number of names three times. With the
// roles a layout says which signature its marks are of (specs, `chosen`); code reads them only to take the quicker of two ways. They are no
// ghost field: callers give them as a number, and a layout is compared and printed, which a ghost field is no part of.
#[derive(Clone, Copy, Debug, PartialEq, Eq)]
pub struct Layout {
    pub names: usize,
    pub roles: usize,
    pub first: usize,
    pub second: usize,
    pub marks: usize,
    pub ghost few: { names ≤ most_names },
}

impl Layout {
    ghost use Rattle.std.specs.Prelude.{◌≡◌, ◌≤◌, length};
    ghost use Rattle.layout.specs.Layouts.{first_square, second_square, mark_square, chosen};

    // The square of the first release's inclusions.
    pub fn first_square(self) -> Square
        ensures { result ≡ first_square self }
    {
        Square {
            base: self.first,
            names: self.names,
        }
    }

    // The square of the second release's inclusions.
    pub fn second_square(self) -> Square
        ensures { result ≡ second_square self }
    {
        Square {
            base: self.second,
            names: self.names,
        }
    }

    // The square of the marks of the comparison.
    pub fn mark_square(self) -> Square
        ensures { result ≡ mark_square self }
    {
        Square {
            base: self.marks,
            names: self.names,
        }
    }

    // Whether a name is in the signature, of which the bytes of the names are read: 0 and 1, as C lends them.
    pub fn has_name(self, chosen_names: &[u8], name: usize) -> bool
        requires { self.names ≤ length chosen_names.now }
        ensures { result ≡ (chosen self chosen_names.now).has_name name }
    {
        name < self.names && chosen_names[name] == 1
    }
}

// What marks are put by: the bytes of the signature's names, the roles of it that each name has an edge with (edges), the two terminologies,
// and the squares. Each name has its byte, its set of roles and its rows.
#[derive(Clone, Copy, Debug, PartialEq, Eq)]
pub struct Given<'a> {
    pub chosen_names: &'a [u8],
    pub edges: &'a [RoleSet],
    pub first: Terminology<'a>,
    pub second: Terminology<'a>,
    pub layout: Layout,
    pub ghost names_in_bounds: { layout.names ≤ length chosen_names.now },
    pub ghost edges_found: { Edges layout.names first.table.now edges.now },
    pub ghost first_rowed: { Rowed layout.names first.table.now },
    pub ghost second_rowed: { Rowed layout.names second.table.now },
}

impl<'a> Given<'a> {
    ghost use Rattle.std.specs.Prelude.{◌≡◌};
    ghost use Rattle.layout.specs.Layouts.{chosen};

    // Whether a name is in the signature.
    pub fn has_name(&self, name: usize) -> bool
        ensures { result ≡ (chosen self.now.layout self.now.chosen_names.now).has_name name }
    {
        self.layout.has_name(self.chosen_names, name)
    }
}
