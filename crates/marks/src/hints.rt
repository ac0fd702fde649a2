// Hints where to look, in the memory that is lent for a square, behind its rows: up to four squares of bits. Nothing is said of what they
// hold, so whoever reads one tests what it asks of it. Where there is no room for them nothing is kept, and nothing is found. A square is
// chosen by its number k and not by an enum: its place is reckoned with it, 0 is the square itself, and what the others hold belongs to the
// crate above.
ghost use Rattle.std.specs.Prelude.{◌≡◌, ◌≤◌, ◌<◌};
ghost use Rattle.std.specs.Option.{IfSome};
ghost use Rattle.marks.specs.Squares.{Small, Room, Area, HintSquare, Hints, Kept};
ghost use Rattle.marks.specs.Lines.{line_bytes};
ghost use Rattle.marks.specs.Waits.{StillWaiting};

use crate::line::Line;
use crate::waiting::Waiting;
use crate::{Square, is_roomy, width};

// The first of the four: what was seen of a row. The others are for whoever uses the square.
pub const SEEN: usize = 1;

impl Square {
    // The k-th square of hints, if there is room for it.
    pub(crate) fn hints(self, k: usize) -> Option<Square>
        requires { Small self × (k ≤ 4) }
        ensures { IfSome result (HintSquare self k) }
    {
        if is_roomy(self.names) {
            return Some(self.behind(k));
        }
        None
    }

    // Puts a bit into the k-th square.
    pub fn put_hint(self, work: &mut [u8], k: usize, x: usize, y: usize)
        requires area { Area self work.old }
        requires le_k { (1 ≤ k) × (k ≤ 4) × (x ≤ self.names) × (y ≤ self.names) }
        ensures { Kept self work.old work.new }
    {
        if let Some(hint) = self.hints(k) {
            hint.mark(work, x, y);
        }
    }

    // The first column of row x of the k-th square from `from` on.
    pub fn next_hint(self, work: &[u8], k: usize, x: usize, from: usize) -> Option<usize>
        requires area { Area self work.now }
        requires k_bound { (k ≤ 4) × x ≤ self.names }
        ensures { IfSome result (λ y. (from ≤ y) × (y ≤ self.names)) }
    {
        let hint = self.hints(k)?;
        hint.next_marked(work, x, from)
    }

    // Puts the square into the k-th one, rows and columns exchanged.
    pub fn turn_hints(self, work: &mut [u8], k: usize)
        requires area { Area self work.old }
        requires le_k { (1 ≤ k) × (k ≤ 4) }
        ensures { Kept self work.old work.new }
    {
        if let Some(hint) = self.hints(k) {
            self.turn(work, hint);
        }
    }

    // Puts into the line what is new in row x since it was seen, and sees it. How many bytes have something new: counted in a byte, so that
    // the machine can count many at a time. Both rows lie in one slice, one of them written, which no iterator can hold.
    fn see_behind(
        self,
        work: &mut [u8],
        seen: Square,
        x: usize,
        line: &mut [u8; Line::LENGTH],
    ) -> usize
        requires room { Room self work.old × Room seen work.old }
        requires names_value { (seen.names ≡ self.names) × (x ≤ self.names) × (self.names ≤ 1023) }
        ensures { Hints seen work.old work.new × (result ≤ line_bytes) }
    {
        let source = self.place(x, 0);
        let target = seen.place(x, 0);
        let mut count: u8 = 0;
        for i in 0..width(self.names) {
            let byte = work[source + i];
            let had = work[target + i];
            // byte & !had, as in rows
            let new = (byte | had) ^ had;
            work[target + i] |= byte;
            line[i] = new;
            if 0 < new {
                count += 1;
            }
        }
        usize::from(count)
    }

    // Sees all rows, in the square that is given. Not by `see_behind`: what that puts into a line and counts would be thrown away.
    fn see_all_behind(self, work: &mut [u8], seen: Square)
        requires room { Room self work.old × Room seen work.old }
        requires names_value { seen.names ≡ self.names }
        ensures { Hints seen work.old work.new }
    {
        for x in 0..=self.names {
            self.add_row(work, x, seen, x);
        }
    }

    // Whether row x is not as it was seen.
    fn is_new(self, work: &[u8], seen: Square, x: usize) -> bool
        requires room { Room self work.now × Room seen work.now }
        requires names_value { (seen.names ≡ self.names) × (x ≤ self.names) }
    {
        self.row(work, x) != seen.row(work, x)
    }

    // Lets each row wait that is not as it was seen in the square that is given.
    fn wait_behind(self, work: &[u8], seen: Square, waiting: &mut Waiting)
        requires room { Room self work.now × Room seen work.now }
        requires names_value { seen.names ≡ self.names }
        ensures { StillWaiting waiting.old waiting.new }
    {
        for x in 0..=self.names {
            if self.is_new(work, seen, x) {
                waiting.wait(x);
            }
        }
    }

    // Puts into the line what is new in row x since it was seen, and sees it in the first square. How many bytes have something new. Where
    // there is no room for that square, all of a row is new each time.
    pub fn see(self, work: &mut [u8], x: usize, line: &mut [u8; Line::LENGTH]) -> usize
        requires area { Area self work.old }
        requires x_le_names { (x ≤ self.names) × (self.names ≤ 1023) }
        ensures { Kept self work.old work.new × (result ≤ line_bytes) }
    {
        if let Some(seen) = self.hints(SEEN) {
            return self.see_behind(work, seen, x, line);
        }
        self.join(work, x, line);
        Line::LENGTH
    }

    // Sees all rows, in the first square.
    pub fn see_all(self, work: &mut [u8])
        requires { Area self work.old }
        ensures { Kept self work.old work.new }
    {
        if let Some(seen) = self.hints(SEEN) {
            self.see_all_behind(work, seen);
        }
    }

    // Lets each row wait that is not as it was seen. Where it is not known, none waits.
    pub fn wait_for_new(self, work: &[u8], waiting: &mut Waiting)
        requires { Area self work.now }
        ensures { StillWaiting waiting.old waiting.new }
    {
        if let Some(seen) = self.hints(SEEN) {
            self.wait_behind(work, seen, waiting);
        }
    }
}
