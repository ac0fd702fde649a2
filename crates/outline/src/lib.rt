// A concept's outline: its conjuncts, and the conjuncts of each ∃'s filler, as one flat list of atoms. A root is the whole concept, numbered 0, or
// the filler of an ∃, numbered in the order of reading.
#![tactic(auto)]

ghost use Rattle.std.specs.Prelude.{◌≡◌, ℕ, ◌≤◌, ◌<◌, length, take, MatchOption};
ghost use Rattle.el.specs.Concepts.{Concept};
ghost use Rattle.release.specs.Versions.{width};
ghost use Rattle.concept.specs.Bytes.{IsTextOf, concept_ok};
ghost use Rattle.outline.specs.Atoms.{BeginsWith, value_of, child_of, ChildGiven, Outlinable, Outlined};
ghost use Rattle.outline.specs.Constructors.{arity, is_known, SplitAs};

use concept::LONGEST;
use release::RoleIndex;
use release::number::Version;

// A name, or an ∃ with the root that is its filler. A role is one byte, so that an atom takes six bytes and an outline 768 of a stack: there is no heap.
#[derive(Clone, Copy, Debug, PartialEq, Eq)]
pub enum Conjunct {
    Name(u16),
    Restriction { role: RoleIndex, filler: u16 },
}

// A conjunct, and the root that it is one of.
#[derive(Clone, Copy, Debug, PartialEq, Eq)]
pub struct Atom {
    pub owner: u16,
    pub conjunct: Conjunct,
}

impl Atom {
    pub const BLANK: Atom = Atom {
        owner: 0,
        conjunct: Conjunct::Name(0),
    };

    // The name, or the role. Crate points matches on the conjunct: this and `child` are kept since they are public.
    pub fn value(self) -> usize
        ensures { result ≡ value_of self }
    {
        match self.conjunct {
            Conjunct::Name(name) => usize::from(name),
            Conjunct::Restriction { role, .. } => usize::from(role.0),
        }
    }

    pub fn owner(self) -> usize
        ensures { result ≡ self.owner }
    {
        usize::from(self.owner)
    }

    // The root that is the filler of an ∃.
    pub fn child(self) -> Option<usize>
        ensures is { result ≡ child_of self }
        ensures given { ChildGiven self result }
    {
        match self.conjunct {
            Conjunct::Name(_) => None,
            Conjunct::Restriction { filler, .. } => Some(usize::from(filler)),
        }
    }
}

// How many atoms and roots an outline has.
#[derive(Clone, Copy, Debug, PartialEq, Eq)]
pub struct Extent {
    pub atoms: usize,
    pub roots: usize,
}

// Room for the atoms: each takes two bytes at least, of 255.
const ATOMS: usize = 128;

// The atoms of a concept stand first in the array, as many as the extent says: there is no heap.
#[derive(Clone, Copy, Debug, PartialEq, Eq)]
pub struct Outline {
    pub atoms: [Atom; ATOMS],
    pub extent: Extent,
}

// The name that the bytes begin with, low byte first, and the bytes after it; none where there are too few.
fn split_name(bytes: &[u8], version: Version) -> Option<(u16, &[u8])>
    ensures { MatchOption result (length bytes.now < width version) (λ p. BeginsWith (width version) bytes.now p.0 p.1.now) }
{
    let rest = bytes.get(version.width()..)?;
    // a number of two bytes at most; no `From` leads from usize to u16
    Some((version.number(bytes, 0) as u16, rest))
}

// What the text of a concept begins with: ⊤, a name, ⊓, or ∃ with its role.
#[derive(Clone, Copy)]
enum Constructor {
    Top,
    Name(u16),
    Conjunction,
    Restriction(RoleIndex),
}

impl Constructor {
    // How many concepts it is put before.
    fn arity(self) -> usize
        ensures { result ≡ arity self }
    {
        match self {
            Constructor::Top | Constructor::Name(_) => 0,
            Constructor::Restriction(_) => 1,
            Constructor::Conjunction => 2,
        }
    }

    // Whether its name is one of so many, or its role.
    fn is_within(self, names: usize, roles: usize) -> bool
        ensures { result ≡ is_known names roles self }
    {
        match self {
            Constructor::Name(name) => usize::from(name) < names,
            Constructor::Restriction(role) => usize::from(role.0) < roles,
            Constructor::Top | Constructor::Conjunction => true,
        }
    }
}

// The constructor that the bytes begin with, and the bytes after it; none where they begin with none or are too few.
fn split_constructor(bytes: &[u8], version: Version) -> Option<(Constructor, &[u8])>
    ensures { SplitAs (width version) bytes.now result }
{
    match bytes {
        [0, rest @ ..] => Some((Constructor::Top, rest)),
        [1, rest @ ..] => {
            let (name, rest) = split_name(rest, version)?;
            Some((Constructor::Name(name), rest))
        }
        [2, rest @ ..] => Some((Constructor::Conjunction, rest)),
        [3, role, rest @ ..] => Some((Constructor::Restriction(RoleIndex(*role)), rest)),
        _ => None,
    }
}

// Whether the bytes are one concept and nothing else, at most 255 of them. One pass without recursion, so that
// no bytes make the stack deep. `pending` counts the concepts still to be read.
pub fn is_text(bytes: &[u8], version: Version, names: usize, roles: usize) -> bool
    ensures { result ≡ concept_ok (width version) names roles bytes.now }
{
    let too_long = LONGEST < bytes.len();
    if too_long {
        return false;
    }
    let mut rest = bytes;
    let mut pending: usize = 1;
    // ⊓ adds to what is pending: there is no range to go over
    while 0 < pending {
        let Some((first, after)) = split_constructor(rest, version) else {
            return false;
        };
        if !first.is_within(names, roles) {
            return false;
        }
        pending = pending - 1 + first.arity();
        rest = after;
    }
    rest.is_empty()
}

impl Outline {
    // The atoms that are written.
    pub fn atoms(&self) -> &[Atom]
        requires { self.now.extent.atoms ≤ length self.now.atoms }
        ensures { result.now ≡ take self.now.extent.atoms self.now.atoms }
    {
        &self.atoms[..self.extent.atoms]
    }

    // The outline of an accepted concept, in one pass over its bytes. ⊓ makes two concepts of one, so there is a stack of those
    // still to be read, an array since there is no heap: `owners` has the root of each, the next one last. It is not one function with `is_text`, since
    // both concepts of a question are tested before one is built: refusals have an order.
    pub fn of(bytes: &[u8], version: Version) -> Outline
        requires { Outlinable (width version) bytes.now }
        ensures { (n m : ℕ) (c : Concept) → IsTextOf (width version) n m c bytes.now → Outlined n c result }
    {
        let mut atoms = [Atom::BLANK; ATOMS];
        let mut owners = [0u16; LONGEST + 1];
        let mut rest = bytes;
        let mut pending: usize = 1;
        let mut roots: u16 = 1;
        let mut count: usize = 0;
        // ⊓ adds to what is pending here too
        while 0 < pending {
            let (first, after) = split_constructor(rest, version).unwrap();
            let top = pending - 1;
            let owner = owners[top];
            rest = after;
            pending = top + first.arity();
            match first {
                Constructor::Top => {}
                Constructor::Name(name) => {
                    let conjunct = Conjunct::Name(name);
                    atoms[count] = Atom { owner, conjunct };
                    count += 1;
                }
                Constructor::Conjunction => owners[top + 1] = owner,
                Constructor::Restriction(role) => {
                    let filler = roots;
                    let conjunct = Conjunct::Restriction { role, filler };
                    atoms[count] = Atom { owner, conjunct };
                    owners[top] = filler;
                    count += 1;
                    roots += 1;
                }
            }
        }
        Outline {
            atoms,
            extent: Extent {
                atoms: count,
                roots: usize::from(roots),
            },
        }
    }
}
