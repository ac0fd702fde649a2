// The names above each root of a concept, by its outline. A row has the names that are not defined by a conjunction; the others, and ⊤, follow from those.
ghost use Rattle.std.specs.Prelude.{◌≡◌, ◌≤◌, ◌<◌};
ghost use Rattle.el.proofs.Tests.{Tells};
ghost use Rattle.points.specs.Grids.{most_roots};
ghost use Rattle.release.specs.Tables.{serves_at};
ghost use Rattle.points.specs.Above.{table_in, OwnServe, Ranges, PartsSet, RootBelow, AtomBelow, InRow, OfAtom, Risen};

use crate::{Classified, Grid};
use outline::{Atom, Conjunct};
use release::{Kind, RoleIndex};

impl Classified<'_> {
    // Whether a role serves where another is asked for. First whether it is that one, since then the table is not read.
    pub(crate) fn serves(&self, role: RoleIndex, asked: RoleIndex) -> bool
        requires { OwnServe self.now }
        ensures { result ≡ serves_at (table_in self.now) role.0 asked.0 }
    {
        role == asked || self.terminology.serves(role, asked)
    }

    // Whether all conjuncts of a name are in the row of a root.
    fn has_parts(&self, above: &Grid, root: usize, name: usize) -> bool
        requires { InRow self.now root name }
        ensures { Tells result (PartsSet self.now above.now root name) }
    {
        self.terminology
            .parts(name)
            .all(|part| above.has(root, part))
    }

    // Whether a root lies below a node.
    pub fn is_above(&self, above: &Grid, root: usize, node: usize) -> bool
        requires ranges { Ranges self.now }
        requires root_lt_most_roots { (root < most_roots) × (node ≤ self.now.square.names) }
        ensures { Tells result (RootBelow self.now above.now root node) }
    {
        if node == self.square.names {
            return true;
        }
        if self.terminology.has_kind(node, Kind::DefinedConjunction) {
            return self.has_parts(above, root, node);
        }
        above.has(root, node)
    }

    // Whether an atom lies below a name that is not defined by a conjunction.
    fn atom_below(&self, atom: Atom, above: &Grid, name: usize) -> bool
        requires of_atom { OfAtom self.now atom }
        requires name_lt_names { name < self.now.square.names }
        ensures { Tells result (AtomBelow self.now atom above.now name) }
    {
        if self.terminology.has_kind(name, Kind::DefinedConjunction) {
            return false;
        }
        match atom.conjunct {
            Conjunct::Name(below) => self.square.is_marked(self.work, usize::from(below), name),
            Conjunct::Restriction { role, filler } => {
                if !self.terminology.has_kind(name, Kind::DefinedRestriction) {
                    return false;
                }
                if !self.serves(role, self.terminology.role(name)) {
                    return false;
                }
                let node = self.terminology.filler(name);
                self.is_above(above, usize::from(filler), node)
            }
        }
    }

    // Puts the names above an atom into the row of its owner.
    pub fn raise(&self, atom: Atom, above: &mut Grid)
        requires { OfAtom self.now atom }
        ensures { Risen self.now atom above.old above.new }
    {
        let row = atom.owner();
        for name in 0..self.square.names {
            if self.atom_below(atom, above, name) {
                above.add(row, name);
            }
        }
    }
}
