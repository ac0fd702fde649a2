// The nodes that do not lie below an atom of a concept: its row loses them.
ghost use Rattle.std.specs.Prelude.{◌≡◌, true, ◌≤◌, ◌<◌};
ghost use Rattle.el.proofs.Tests.{Tells};
ghost use Rattle.release.specs.Files.{restricts};
ghost use Rattle.release.specs.Tables.{kind_at, filler_at, HasRow};
ghost use Rattle.outline.specs.Atoms.{child_number};
ghost use Rattle.points.specs.Above.{table_in, OwnServe};
ghost use Rattle.points.specs.Nodes.{AxiomReaches, Idle, IdleOf, NodeReaches, NodeBelow, Ranged, FromNode, OfAtom, NodesLost};
ghost use Rattle.points.specs.Grids.{most_roots, most_nodes};
ghost use Rattle.marks.specs.Lines.{Spans, Empty};

use crate::{Classified, Grid, Subsumer};
use marks::line;
use outline::{Atom, Conjunct};
use release::RoleIndex;

impl Classified<'_> {
    // Whether the axiom of a name is an ∃ of a role that serves for the one asked, and the row of the root has not lost its filler.
    fn axiom_reaches(&self, lost: &Grid, role: RoleIndex, root: usize, name: usize) -> bool
        requires has_row { HasRow name
            × (restricts (kind_at (table_in self.now) name) ≡ true → filler_at (table_in self.now) name < most_nodes) }
        requires own { OwnServe self.now }
        requires root_lt_most_roots { root < most_roots }
        ensures { Tells result (AxiomReaches self.now lost.now role.0 root name) }
    {
        if !self.terminology.is_restriction(name) {
            return false;
        }
        if !self.serves(self.terminology.role(name), role) {
            return false;
        }
        let filler = self.terminology.filler(name);
        !lost.has(root, filler)
    }

    // Adds to the line the names whose axioms do not reach: by these no node lies below ∃ of the role over the root, and by each other name the nodes
    // below it do. Names are numbers here, which no slice holds.
    fn find_idle(&self, lost: &Grid, idle: &mut [u8], role: RoleIndex, root: usize)
        requires ranged { Ranged self.now }
        requires spans { Spans self.now.square.names idle.old × Empty idle.old × (root < most_roots) }
        ensures { Idle self.now lost.now role.0 root idle.new }
    {
        for name in 0..self.square.names {
            if !self.axiom_reaches(lost, role, root, name) {
                line::add(idle, name);
            }
        }
    }

    // The same for an atom, where it is an ∃.
    pub fn find_idle_of(&self, atom: Atom, lost: &Grid, idle: &mut [u8])
        requires ranged { Ranged self.now }
        requires spans { Spans self.now.square.names idle.old × Empty idle.old }
        requires child_lt_most_roots { child_number atom < most_roots }
        ensures { IdleOf self.now lost.now atom idle.new }
    {
        if let Conjunct::Restriction { role, filler } = atom.conjunct {
            self.find_idle(lost, idle, role, usize::from(filler));
        }
    }

    // Whether a node lies below an ∃ of D, by the line of the names that are idle for it: a name above the node is not in the line.
    pub fn node_reaches(&self, idle: &[u8], node: usize) -> bool
        requires { FromNode self.now idle.now node }
        ensures { Tells result (NodeReaches self.now idle.now node) }
    {
        let Some(first) = self.square.next_outside(self.work, node, idle, 0) else {
            return false;
        };
        // the last column is ⊤
        first < self.square.names
    }

    // Whether a node lies below an atom.
    fn node_below(&self, subsumer: &Subsumer, node: usize) -> bool
        requires of_atom { OfAtom self.now subsumer.now.atom }
        requires from_node { FromNode self.now subsumer.now.idle.now node }
        ensures { Tells result (NodeBelow self.now subsumer.now.atom subsumer.now.idle.now node) }
    {
        match subsumer.atom.conjunct {
            Conjunct::Name(name) => self.square.is_marked(self.work, node, usize::from(name)),
            Conjunct::Restriction { .. } => self.node_reaches(subsumer.idle, node),
        }
    }

    // Takes the nodes that do not lie below an atom from the row of its owner.
    pub fn lose_nodes(&self, subsumer: &Subsumer, lost: &mut Grid)
        requires of_atom { OfAtom self.now subsumer.now.atom }
        requires spans { Spans self.now.square.names subsumer.now.idle.now }
        ensures { NodesLost self.now subsumer.now.atom subsumer.now.idle.now lost.old lost.new }
    {
        let row = subsumer.atom.owner();
        // ⊤ is a node too
        let nodes = self.square.names + 1;
        for node in 0..nodes {
            if !self.node_below(subsumer, node) {
                lost.add(row, node);
            }
        }
    }
}
