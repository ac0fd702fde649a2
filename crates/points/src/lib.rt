// Which roots and nodes lie below a concept D, by its outline: a row of marks for each root of D. The points are the nodes of the release and the roots
// of another concept C.
#![tactic(auto)]

ghost use Rattle.std.specs.Prelude.{◌≡◌, Some, ◌≤◌, ◌<◌, length};
ghost use Rattle.el.proofs.Tests.{Tells};
ghost use Rattle.marks.specs.Lines.{Has, Added};
ghost use Rattle.points.specs.Grids.{most_roots, most_nodes, root_bytes, cell, Set, Pair, Adds};
ghost use Rattle.outline.specs.declared.Conjunct.TheVariants as conjunct;
ghost use Rattle.points.specs.Nodes.{RestrictionOf};

use marks::{Square, line};
use outline::{Atom, Outline};
use release::RoleIndex;
use release::terminology::Terminology;

pub mod above;
pub mod nodes;
pub mod roots;

// The places of a row: as many as there can be nodes, or roots of a concept.
const NODES: usize = 1024;

const ROOTS: usize = 128;

// The bytes of a line of all roots that a concept can have.
const ROOT_BYTES: usize = 16;

// The bytes of 128 rows of either: a bit a place.
const AREA: usize = 16384;

const PAIR_AREA: usize = 2048;

// A row of marks for each root that a concept can have: its places are the nodes. An array, since there is no heap.
#[derive(Clone, Copy, Debug, PartialEq, Eq)]
pub struct Grid {
    pub rows: [u8; AREA],
}

impl Grid {
    pub const BLANK: Grid = Grid { rows: [0; AREA] };

    pub fn has(&self, row: usize, place: usize) -> bool
        requires { (row < most_roots) × (place < most_nodes) }
        ensures { Tells result (Set self.now row place) }
    {
        line::has(&self.rows, row * NODES + place)
    }

    fn add(&mut self, row: usize, place: usize)
        requires { (row < most_roots) × (place < most_nodes) }
        ensures { Added (cell most_nodes row place) self.old.rows self.new.rows }
    {
        line::add(&mut self.rows, row * NODES + place);
    }
}

// A row of marks for each root that a concept can have: its places are the roots of another concept. Not a grid of fewer places, since an array's
// length is part of its type.
#[derive(Clone, Copy, Debug, PartialEq, Eq)]
pub struct Pairs {
    rows: [u8; PAIR_AREA],
}

impl Pairs {
    pub const BLANK: Pairs = Pairs {
        rows: [0; PAIR_AREA],
    };

    pub fn has(&self, row: usize, root: usize) -> bool
        requires { (row < most_roots) × (root < most_roots) }
        ensures { Tells result (Pair self.now row root) }
    {
        line::has(&self.rows, row * ROOTS + root)
    }

    fn add(&mut self, row: usize, root: usize)
        requires { (row < most_roots) × (root < most_roots) }
        ensures { Added (cell most_roots row root) self.old.rows self.new.rows }
    {
        line::add(&mut self.rows, row * ROOTS + root);
    }

    // Adds to a row the roots that a line does not have, eight at a time. By an index, since a proof knows nothing of what a `zip` over `iter_mut` has
    // written.
    fn add_outside(&mut self, line: &[u8], row: usize)
        requires row { row < most_roots }
        requires line { root_bytes ≤ length line.now }
        ensures { Adds most_roots row most_roots (λ root. Has line.now root → ⊥) (Has line.now) self.old.rows self.new.rows }
    {
        let start = row * ROOT_BYTES;
        for i in 0..ROOT_BYTES {
            self.rows[start + i] |= 255 ^ line[i];
        }
    }
}

// An accepted release, and the square of the inclusions between its nodes.
#[derive(Clone, Copy, Debug, PartialEq, Eq)]
pub struct Classified<'a> {
    pub terminology: Terminology<'a>,
    pub work: &'a [u8],
    pub square: Square,
}

// A concept C of which is asked whether it lies below another: its outline, and the rows of the names above its roots.
#[derive(Clone, Copy, Debug, PartialEq, Eq)]
pub struct Subsumee<'a> {
    pub outline: &'a Outline,
    pub above: &'a Grid,
}

// An atom of D and, where it is an ∃, the line of the names by which no node lies below it. What `idle` has to hold is said in the contracts: it speaks
// of the release too (`Classified`), which is no part of it. So is that the numbers of an atom are in range (`OfAtom`), which no value of the release
// or of the atom alone could say.
#[derive(Clone, Copy, Debug, PartialEq, Eq)]
pub struct Subsumer<'a> {
    pub atom: Atom,
    pub idle: &'a [u8],
}

// An ∃ of D, a role over a root, and the line of the names by which no node lies below it.
#[derive(Clone, Copy, Debug, PartialEq, Eq)]
pub struct Restriction<'a> {
    pub role: RoleIndex,
    pub root: usize,
    pub idle: &'a [u8],
}

impl<'a> Subsumer<'a> {
    // The ∃ that the atom is, by its role and its filler.
    fn restriction(&self, role: RoleIndex, filler: u16) -> Restriction<'a>
        requires { self.now.atom.conjunct ≡ conjunct.Restriction role filler }
        ensures { RestrictionOf self.now (Some result) }
    {
        Restriction {
            role,
            root: usize::from(filler),
            idle: self.idle,
        }
    }
}
