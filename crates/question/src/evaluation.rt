// The evaluation of a concept D over points, the nodes of a release and the roots of a concept C, atom by atom from the last: an ∃ comes before the
// atoms of its filler, so those are done when it is met.
ghost use Rattle.el.specs.Derivability.{Derives};
ghost use Rattle.el.proofs.Tests.{Tells};
ghost use Rattle.release.specs.Versions.{width};
ghost use Rattle.question.specs.Evaluation.{content_in, root_point, ToFill, Filled, ToSift, NamesSifted, ToLose, Lost, ToDecide, ToPlace, Placed};

use crate::position::Position;
use outline::Outline;
use points::{Classified, Grid, Pairs, Subsumee};
use release::number::Version;

// Fills the rows of the names above the roots of an outline.
fn fill_above(classified: &Classified, outline: &Outline, above: &mut Grid)
    requires { ToFill classified.now outline.now above.old }
    ensures { Filled classified.now outline.now above.new }
{
    for atom in outline.atoms().iter().rev() {
        classified.raise(*atom, above);
    }
}

// Takes from the rows of D, by its outline, the roots of C that do not lie below its names.
fn sift_by_names(classified: &Classified, subsumee: &Subsumee, above: &Outline, roots: &mut Pairs)
    requires { ToSift classified.now subsumee.now above.now roots.old }
    ensures { NamesSifted classified.now subsumee.now.outline.now above.now roots.new }
{
    for atom in above.atoms() {
        classified.lose_under_name(subsumee, *atom, roots);
    }
}

// Takes from the rows of D, by its outline, the nodes that do not lie below its roots, and the roots of C that do not lie below its ∃.
fn lose_all(
    classified: &Classified,
    below: &Outline,
    above: &Outline,
    nodes: &mut Grid,
    roots: &mut Pairs,
)
    requires { ToLose classified.now below.now above.now nodes.old roots.old }
    ensures { Lost classified.now below.now above.now roots.new }
{
    for atom in above.atoms().iter().rev() {
        classified.lose_points(below, *atom, nodes, roots);
    }
}

// Whether C ⊑ D, by the outlines of both. The arrays here are most of the stack that a question takes, 18 KiB: one grid over nodes, which has the names
// above the roots of C first and then the nodes that do not lie below those of D, and one over pairs of roots.
fn is_below(classified: &Classified, below: &Outline, above: &Outline) -> bool
    requires { ToDecide classified.now below.now above.now }
    ensures { Tells result (Derives (content_in classified.now) (root_point below.now 0) (root_point above.now 0)) }
{
    let mut grid = Grid::BLANK;
    fill_above(classified, below, &mut grid);
    let mut roots = Pairs::BLANK;
    let subsumee = Subsumee {
        outline: below,
        above: &grid,
    };
    sift_by_names(classified, &subsumee, above, &mut roots);
    grid = Grid::BLANK;
    lose_all(classified, below, above, &mut grid, &mut roots);
    let lost = roots.has(0, 0);
    !lost
}

// How C and D lie, by the square of the inclusions of nodes, which serves both directions. Nothing calls itself.
pub fn position(classified: &Classified, version: Version, below: &[u8], above: &[u8]) -> Position
    requires { ToPlace classified.now (width version) below.now above.now }
    ensures { Placed classified.now (width version) below.now above.now result }
{
    let outline_below = Outline::of(below, version);
    let outline_above = Outline::of(above, version);
    let upward = is_below(classified, &outline_below, &outline_above);
    let downward = is_below(classified, &outline_above, &outline_below);
    Position::of(upward, downward)
}
