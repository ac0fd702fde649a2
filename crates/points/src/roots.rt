// The roots of a concept C that do not lie below an atom of a concept D: its row loses them. The steps are those of nodes, but a root has an outline
// to ask and a node a row of the square: one trait of both would have as many methods as these functions, and a closure that asks would hold the grid
// that the loop writes.
ghost use Rattle.std.specs.Prelude.{◌≤◌, ◌<◌, length};
ghost use Rattle.el.proofs.Tests.{Tells};
ghost use Rattle.marks.specs.Lines.{Empty, Spans};
ghost use Rattle.points.specs.Grids.{most_roots, root_bytes};
ghost use Rattle.points.specs.Roots.{AtomReaches, Reaching, FromRoot, FromRoots, OfNode, OfName, OfAtom, LostNotBelow, LostNotReaching, NamesLost, RootsLost, PointsLost};

use crate::{Classified, Grid, Pairs, ROOT_BYTES, Restriction, Subsumee, Subsumer};
use marks::line;
use marks::line::Line;
use outline::{Atom, Conjunct, Outline};

impl Classified<'_> {
    // Whether an atom of C lies below an ∃ of D: a name that does, or an ∃ of a role that serves over a root that the row of D's root has not lost.
    fn atom_reaches(&self, atom: Atom, restriction: &Restriction, lost: &Pairs) -> bool
        requires from_root { FromRoot self.now atom restriction.now }
        ensures { Tells result (AtomReaches self.now atom restriction.now.idle.now lost.now restriction.now.role.0 restriction.now.root) }
    {
        match atom.conjunct {
            Conjunct::Name(name) => self.node_reaches(restriction.idle, usize::from(name)),
            Conjunct::Restriction { role, filler } => {
                self.serves(role, restriction.role)
                    && !lost.has(restriction.root, usize::from(filler))
            }
        }
    }

    // Adds to a line the roots of which an atom does. Each atom is looked at once, and not once a root.
    fn find_reaching(
        &self,
        outline: &Outline,
        restriction: &Restriction,
        lost: &Pairs,
        reaching: &mut [u8],
    )
        requires from_roots { FromRoots self.now outline.now restriction.now }
        requires reaching { (root_bytes ≤ length reaching.old) × Empty reaching.old }
        ensures { Reaching self.now outline.now outline.now.extent.atoms restriction.now.idle.now lost.now restriction.now.role.0 restriction.now.root reaching.new }
    {
        for atom in outline.atoms() {
            if self.atom_reaches(*atom, restriction, lost) {
                line::add(reaching, atom.owner());
            }
        }
    }

    // Takes the roots of C that do not lie below a node from a row.
    fn lose_not_below(&self, subsumee: &Subsumee, node: usize, lost: &mut Pairs, row: usize)
        requires { OfNode self.now subsumee.now node row }
        ensures { LostNotBelow self.now subsumee.now row node lost.old lost.new }
    {
        for root in 0..subsumee.outline.extent.roots {
            if !self.is_above(subsumee.above, root, node) {
                lost.add(row, root);
            }
        }
    }

    // Takes the roots of C that do not lie below an ∃ of D from a row.
    fn lose_not_reaching(
        &self,
        outline: &Outline,
        restriction: &Restriction,
        lost: &mut Pairs,
        row: usize,
    )
        requires from_roots { FromRoots self.now outline.now restriction.now }
        requires row { row < most_roots }
        ensures { LostNotReaching self.now outline.now row restriction.now lost.old lost.new }
    {
        let mut reaching = [0; ROOT_BYTES];
        self.find_reaching(outline, restriction, lost, &mut reaching);
        lost.add_outside(&reaching, row);
    }

    // Takes the roots of C that do not lie below an atom of D from the row of its owner, where the atom is a name.
    pub fn lose_under_name(&self, subsumee: &Subsumee, atom: Atom, lost: &mut Pairs)
        requires { OfName self.now subsumee.now atom }
        ensures { NamesLost self.now subsumee.now atom lost.old lost.new }
    {
        if let Conjunct::Name(name) = atom.conjunct {
            self.lose_not_below(subsumee, usize::from(name), lost, atom.owner());
        }
    }

    // The same where it is an ∃. The grids have the rows of its child.
    fn lose_under_some(&self, outline: &Outline, subsumer: &Subsumer, lost: &mut Pairs)
        requires of_atom { OfAtom self.now outline.now subsumer.now.atom }
        requires spans { Spans self.now.square.names subsumer.now.idle.now }
        ensures { RootsLost self.now outline.now subsumer.now.atom subsumer.now.idle.now lost.old lost.new }
    {
        let Conjunct::Restriction { role, filler } = subsumer.atom.conjunct else {
            return;
        };
        let restriction = subsumer.restriction(role, filler);
        self.lose_not_reaching(outline, &restriction, lost, subsumer.atom.owner());
    }

    // Takes the nodes that do not lie below an atom of D from the row of its owner, and the roots of C where it is an ∃. The names by which no node
    // does are found once for both.
    pub fn lose_points(&self, outline: &Outline, atom: Atom, nodes: &mut Grid, lost: &mut Pairs)
        requires { OfAtom self.now outline.now atom }
        ensures { PointsLost self.now outline.now atom nodes.old nodes.new lost.old lost.new }
    {
        // as long as any line, since there is no heap
        let mut idle = [0; Line::LENGTH];
        self.find_idle_of(atom, nodes, &mut idle);
        let subsumer = Subsumer { atom, idle: &idle };
        self.lose_under_some(outline, &subsumer, lost);
        self.lose_nodes(&subsumer, nodes);
    }
}
