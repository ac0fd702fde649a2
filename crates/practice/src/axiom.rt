// An axiom drawn and put at a place of the output.
ghost use Rattle.std.specs.Prelude.{◌≡◌, true, false, ◌<◌, length};
ghost use Rattle.release.specs.Files.{joins};
ghost use Rattle.release.specs.Kinds.{kind_number};
ghost use Rattle.rewriting.specs.Bytes.{filler_number, tail_bytes, axiom_bytes};
ghost use Rattle.output.specs.Places.{Put};
ghost use Rattle.practice.specs.Draws.{next};
ghost use Rattle.practice.specs.Practice.{filler_from, conjunction_from, restriction_from, axiom_from, has_axiom};

use crate::Practice;
use crate::draws::Draws;
use output::put_text;
use release::number::Version;
use release::{ConceptName, Kind};
use rewriting::put_number;

// The number of a kind in the file.
pub fn number_of(kind: Kind) -> usize
    ensures { result ≡ kind_number kind }
{
    match kind {
        Kind::PrimitiveConjunction => 1,
        Kind::DefinedConjunction => 2,
        Kind::PrimitiveRestriction => 3,
        Kind::DefinedRestriction => 4,
    }
}

impl<'a> Practice<'a> {
    // The names on from the start drawn. Where they go round the end of the pool, those at its start come first.
    fn put_conjunction(&self, draws: &mut Draws, output: &mut [u8], at: usize) -> usize
        requires { 0 < length self.now.pool.now }
        ensures drawn { draws.new.state ≡ next (next draws.old.state) }
        ensures put { Put output.old at (tail_bytes 1 (conjunction_from self.now.pool.now draws.old.state)) output.new result }
    {
        let size = self.pool.len();
        let count = 1 + draws.draw(size.min(4));
        let start = draws.draw(size);
        let (before, on) = self.pool.split_at(start);
        let counted = put_number(output, at, Version::One, count);
        if count <= on.len() {
            return put_text(output, counted, &on[..count]);
        }
        let round = put_text(output, counted, &before[..count - on.len()]);
        put_text(output, round, on)
    }

    // The number of the filler drawn: the last choice is ⊤.
    fn filler_number(&self, drawn: usize) -> usize
        ensures { result ≡ filler_number 1 (filler_from self.now.names drawn) }
    {
        if drawn == self.names {
            return Version::One.top();
        }
        drawn
    }

    fn put_restriction(&self, draws: &mut Draws, output: &mut [u8], at: usize) -> usize
        requires { 0 < self.now.roles }
        ensures drawn { draws.new.state ≡ next (next draws.old.state) }
        ensures put { Put output.old at (tail_bytes 1 (restriction_from self.now.names self.now.roles draws.old.state)) output.new result }
    {
        let role = draws.draw(self.roles);
        let filler = draws.draw(self.names + 1);
        let ruled = put_number(output, at, Version::One, role);
        let number = self.filler_number(filler);
        put_number(output, ruled, Version::One, number)
    }

    // Whether a name of this kind has an axiom: a conjunction needs a pool to take its names from.
    pub(crate) fn has_axiom(&self, kind: Kind) -> bool
        ensures { result ≡ has_axiom (length self.now.pool.now) (kind_number kind) }
    {
        kind.is_restriction() || !self.pool.is_empty()
    }

    pub(crate) fn put_axiom(
        &self,
        name: ConceptName,
        kind: Kind,
        draws: &mut Draws,
        output: &mut [u8],
        at: usize,
    ) -> usize
        requires has { has_axiom (length self.now.pool.now) (kind_number kind) ≡ true }
        requires role { joins (kind_number kind) ≡ false → 0 < self.now.roles }
        ensures drawn { draws.new.state ≡ next (next draws.old.state) }
        ensures put { Put output.old at
            (axiom_bytes 1 (axiom_from self.now.names self.now.roles self.now.pool.now name.0 (kind_number kind) draws.old.state)) output.new result }
    {
        let named = put_number(output, at, Version::One, name.0);
        let kinded = put_number(output, named, Version::One, number_of(kind));
        if kind.is_conjunction() {
            return self.put_conjunction(draws, output, kinded);
        }
        self.put_restriction(draws, output, kinded)
    }
}
