// What is asked of both calls: a side of a chosen name.
ghost use Rattle.witness.specs.Asked.{AskedFor};

use release::ConceptName;
use signature::LentSignature;

// The left, where a concept lies above the name, and the right, where it lies below.
#[derive(Clone, Copy, Debug, PartialEq, Eq)]
pub enum Side {
    Left,
    Right,
}

// A name that is chosen, and a side of it.
#[derive(Clone, Copy, Debug, PartialEq, Eq)]
pub struct Asked {
    pub name: ConceptName,
    pub side: Side,
}

impl Asked {
    // Nothing is asked of a name that is not chosen, nor on a side other than 1, the left, and 2, the right.
    pub fn of(signature: &LentSignature, name: ConceptName, side: usize) -> Option<Asked>
        ensures { AskedFor signature.now name.0 side result }
    {
        if !signature.has_name(name) {
            return None;
        }
        let side = match side {
            1 => Side::Left,
            2 => Side::Right,
            _ => return None,
        };
        Some(Asked { name, side })
    }
}
