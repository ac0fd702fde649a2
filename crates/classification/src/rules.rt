// The rules at one cell, or for one marked name. What they ask and give is said in specs/Steps.
ghost use Rattle.std.specs.Prelude.{◌≡◌, true, ◌≤◌};
ghost use Rattle.el.proofs.Tests.{Tells};
ghost use Rattle.release.specs.Files.{joins};
ghost use Rattle.release.specs.Tables.{kind_at, count_at, Conjunctive};
ghost use Rattle.marks.specs.Squares.{Room, Marked};
ghost use Rattle.marks.specs.Passes.{Pass, Below, Due};
ghost use Rattle.classification.specs.Steps.{Of, Step, PartMarked, Gathers, Needed, Fills, Gathered, Seeds, InRow, Source, Pair};

use crate::Classification;
use release::Kind;
use release::roles::RoleSet;

impl<'a> Classification<'a> {
    // Marks x ⊑ x and x ⊑ ⊤. Whether a mark is new.
    pub(crate) fn seed(&self, work: &mut [u8], x: usize) -> bool
        requires room { Room self.now.square work.old }
        requires x_le_names { x ≤ self.now.square.names }
        ensures { Seeds self.now.square x work.old work.new result }
    {
        let itself = self.square.mark(work, x, x);
        let top = self.square.mark(work, x, self.square.names);
        itself | top
    }

    // Marks the conjuncts of b, which is marked in row x. Whether a mark is new.
    pub(crate) fn mark_parts(&self, work: &mut [u8], x: usize, b: usize) -> bool
        requires source { Of Source self.now work.old x b }
        requires b_value { joins (kind_at self.now.terminology.table.now b) ≡ true }
        ensures { Pass (Of Step self.now) self.now.square (Below (Of PartMarked self.now x b) (count_at self.now.terminology.file.now self.now.terminology.table.now b)) work.old work.new result }
    {
        let mut changed = false;
        for part in self.terminology.parts(b) {
            let new = self.square.mark(work, x, part);
            changed |= new;
        }
        changed
    }

    // Whether y, a defined restriction with this filler, whose role those of the set serve for, is not marked in row b yet, and the restriction
    // b serves for it. The cell is looked at first, since most are marked or not asked for.
    pub(crate) fn fills(
        &self,
        work: &[u8],
        b: usize,
        y: usize,
        serving: RoleSet,
        filler: usize,
    ) -> bool
        requires { Pair self.now.terminology.table.now self.now.square work.now b y serving.0 filler }
        ensures { Due result (Fills self.now.terminology.table.now self.now.square b y work.now) (Marked self.now.square work.now b y) }
    {
        if self.square.is_marked(work, b, y) {
            return false;
        }
        if serving.has_small(self.terminology.role(b)) {
            let under = self.terminology.filler(b);
            return self.square.is_marked(work, under, filler);
        }
        false
    }

    // The first conjunct of y, and ⊤ if it has none: a column that is marked in each row in which y is gathered.
    pub(crate) fn first_part(&self, y: usize) -> usize
        requires { Conjunctive self.now.square.names self.now.terminology.file.now self.now.terminology.table.now y }
        ensures { Of Needed self.now y result }
    {
        self.terminology
            .parts(y)
            .next()
            .unwrap_or(self.square.names)
    }

    // Whether all conjuncts of the defined conjunction y are marked in row x.
    fn has_parts(&self, work: &[u8], x: usize, y: usize) -> bool
        requires in_row { Of InRow self.now work.now x y }
        requires kind { kind_at self.now.terminology.table.now y ≡ 2 }
        ensures { Tells result (Of Gathers self.now x y work.now) }
    {
        self.terminology
            .parts(y)
            .all(|part| self.square.is_marked(work, x, part))
    }

    // Whether y is a defined conjunction, and all its conjuncts are marked in row x.
    pub(crate) fn gathers(&self, work: &[u8], x: usize, y: usize) -> bool
        requires { Of InRow self.now work.now x y }
        ensures { Tells result (Of Gathers self.now x y work.now) }
    {
        if !self.terminology.has_kind(y, Kind::DefinedConjunction) {
            return false;
        }
        self.has_parts(work, x, y)
    }

    // Marks the defined conjunction y in row x if all its conjuncts are marked there. Whether the mark is new.
    pub(crate) fn gather(&self, work: &mut [u8], x: usize, y: usize) -> bool
        requires in_row { Of InRow self.now work.old x y }
        requires kind { kind_at self.now.terminology.table.now y ≡ 2 }
        ensures { Pass (Of Step self.now) self.now.square (Of Gathered self.now x y) work.old work.new result }
    {
        if self.square.is_marked(work, x, y) {
            return false;
        }
        if self.has_parts(work, x, y) {
            return self.square.mark(work, x, y);
        }
        false
    }
}
