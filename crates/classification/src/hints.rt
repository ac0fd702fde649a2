// Where to look, by hints behind the square of inclusions: for each node what lies below it, the restrictions with this filler, and the
// defined conjunctions with this conjunct. Nothing is said of what they hold, so whoever reads a name from them tests what it asks of it.
ghost use Rattle.std.specs.Prelude.{◌<◌, ◌≡◌, true};
ghost use Rattle.release.specs.Files.{joins, restricts};
ghost use Rattle.release.specs.Tables.{kind_at};
ghost use Rattle.marks.specs.Squares.{Area, Kept};
ghost use Rattle.classification.specs.Steps.{Of, Listable};

use crate::Classification;
use marks::Square;
use release::Kind;

// Which of the four squares behind the rows holds what; the first is for what was seen of a row. Numbers, as crate marks asks for.
pub const BELOW: usize = 2;

pub const FILLERS: usize = 3;

pub const CONJUNCTS: usize = 4;

impl<'a> Classification<'a> {
    // Notes a restriction by its filler.
    fn list_restriction(&self, work: &mut [u8], restriction: usize)
        requires listable { Of Listable self.now work.old }
        requires restriction { (restriction < self.now.square.names) × (restricts (kind_at self.now.terminology.table.now restriction) ≡ true) }
        ensures { Kept self.now.square work.old work.new }
    {
        let filler = self.terminology.filler(restriction);
        self.square.put_hint(work, FILLERS, filler, restriction);
    }

    // Notes a defined conjunction by each of its conjuncts.
    fn list_conjunction(&self, work: &mut [u8], conjunction: usize)
        requires listable { Of Listable self.now work.old }
        requires conjunction { (conjunction < self.now.square.names) × (joins (kind_at self.now.terminology.table.now conjunction) ≡ true) }
        ensures { Kept self.now.square work.old work.new }
    {
        for part in self.terminology.parts(conjunction) {
            self.square.put_hint(work, CONJUNCTS, part, conjunction);
        }
    }

    // Notes each name by its axiom.
    pub(crate) fn list(&self, work: &mut [u8])
        requires { Of Listable self.now work.old }
        ensures { Kept self.now.square work.old work.new }
    {
        for x in 0..self.square.names {
            match self.terminology.kind(x) {
                Some(Kind::PrimitiveRestriction | Kind::DefinedRestriction) => {
                    self.list_restriction(work, x);
                }
                Some(Kind::DefinedConjunction) => self.list_conjunction(work, x),
                _ => {}
            }
        }
    }
}

// Notes for each node what lies below it, unless it is noted: ⊤ has something below it then.
pub fn list_below(square: Square, work: &mut [u8])
    requires { Area square work.old }
    ensures { Kept square work.old work.new }
{
    if square.next_hint(work, BELOW, square.names, 0).is_none() {
        square.turn_hints(work, BELOW);
    }
}
