// A square with rows and columns exchanged.
ghost use Rattle.std.specs.Prelude.{◌≡◌, ◌+◌, ◌≤◌};
ghost use Rattle.marks.specs.Squares.{span, Room, Unmarked, Hints};
ghost use Rattle.marks.specs.Inclusions.{Turned, TurnedBelow};

use crate::Square;

impl Square {
    // Row x becomes a column. The loop writes the memory that it searches, so no iterator can hold it.
    fn turn_row(self, work: &mut [u8], turned: Square, x: usize)
        requires room { Room self work.old × Room turned work.old }
        requires names_value { (self.names ≡ turned.names) × (self.base + span self.names ≤ turned.base) × (x ≤ self.names) }
        ensures turned { TurnedBelow self work.old turned work.old x → TurnedBelow self work.new turned work.new (x + 1) }
        ensures hints { Hints turned work.old work.new }
    {
        let mut next = 0;
        while let Some(y) = self.next_marked(work, x, next) {
            turned.mark(work, y, x);
            next = y + 1;
        }
    }

    // All rows become columns. The turned square lies behind the other one, and keeps what it had.
    pub fn turn(self, work: &mut [u8], turned: Square)
        requires room { Room self work.old × Room turned work.old }
        requires names_value { (self.names ≡ turned.names) × (self.base + span self.names ≤ turned.base) }
        ensures turned { Unmarked turned work.old → Turned self work.new turned work.new }
        ensures hints { Hints turned work.old work.new }
    {
        for x in 0..=self.names {
            self.turn_row(work, turned, x);
        }
    }
}
