// Squares of marks in lent memory, a bit a cell. Nothing here knows what a mark means.
#![tactic(auto)]

ghost use Rattle.std.specs.Prelude.{◌≡◌, true, ◌*◌, ◌≤◌, length};
ghost use Rattle.el.proofs.Tests.{Tells};
ghost use Rattle.marks.specs.Squares.{span, behind, Unmarked, Touches, width, most_names, most_cells, Small, Place, Room, Marked, Put};
ghost use Rattle.marks.specs.Lines.{RowOf};
ghost use Rattle.marks.specs.Memory.{size, Zeroed};

pub mod columns;
pub mod hints;
pub mod inclusions;
pub mod line;
pub mod order;
mod path;
pub mod rows;
pub mod rules;
pub mod turned;
pub mod waiting;
pub mod words;

// The place of a square: names + 1 rows and as many columns, row after row from `base` on. A row begins with a byte of its own. The memory
// is no part of it, since several squares lie in one lent slice. That rows and columns are in range stands in each contract: the bound is the
// square's, so a type of it would hold a square beside each number, and loops and hints give the numbers anew each turn.
#[derive(Clone, Copy, Debug, PartialEq, Eq)]
pub struct Square {
    pub base: usize,
    pub names: usize,
}

// The bytes of a row.
fn width(names: usize) -> usize
    requires { names ≤ most_names }
    ensures { (result ≡ width names) × (result ≤ most_names) }
{
    names / 8 + 1
}

// Whether there is room for four squares behind one. It lacks only for a few numbers of names that are small.
pub fn is_roomy(names: usize) -> bool
    requires { names ≤ most_names }
    ensures { result ≡ true → 5 * span names ≤ size names }
{
    5 * width(names) <= names + 1
}

// The number of cells of a square.
pub fn size(names: usize) -> usize
    requires { names ≤ most_names }
    ensures { (result ≡ size names) × (result ≤ most_cells) }
{
    (names + 1) * (names + 1)
}

// The bytes of work memory for four squares, each with its hints.
pub fn work_length(names: usize) -> usize
    requires { names ≤ most_names }
    ensures { (result ≡ 4 * size names) × (result ≤ 4 * most_cells) }
{
    4 * size(names)
}

// Sets the first `count` bytes to 0: a name for one `fill`, so that `Zeroed` is promised once for all crates that ask zeroed memory.
pub fn clear(work: &mut [u8], count: usize)
    requires { count ≤ length work.old }
    ensures { Zeroed count work.old work.new }
{
    work[..count].fill(0);
}

impl Square {
    // The k-th square behind a square, in the memory that is lent for it: room for hints.
    pub fn behind(self, k: usize) -> Square
        requires { Small self × (k ≤ 4) }
        ensures { result ≡ behind self k }
    {
        let width = width(self.names);
        Square {
            base: self.base + k * ((self.names + 1) * width),
            names: self.names,
        }
    }

    // The byte of a cell: the only product with a row.
    fn place(self, x: usize, y: usize) -> usize
        requires small { Small self }
        requires x_le_names { (x ≤ self.names) × (y ≤ self.names) }
        ensures { Place self x y result }
    {
        let width = width(self.names);
        self.base + (x * width + y / 8)
    }

    // The bytes of row x: a line.
    pub fn row<'a>(self, work: &'a [u8], x: usize) -> &'a [u8]
        requires room { Room self work.now }
        requires x_le_names { x ≤ self.names }
        ensures { RowOf self work.now x result.now }
    {
        let row = self.place(x, 0);
        &work[row..row + width(self.names)]
    }

    // Whether a cell is marked. Not by `line::has` of its row: one place leads to the byte, as in `mark`, and no row is cut out first.
    pub fn is_marked(self, work: &[u8], x: usize, y: usize) -> bool
        requires room { Room self work.now }
        requires x_le_names { (x ≤ self.names) × (y ≤ self.names) }
        ensures { Tells result (Marked self work.now x y) }
    {
        let i = self.place(x, y);
        let byte = work[i];
        (byte >> (y % 8)) % 2 == 1
    }

    // Marks a cell. Whether it was not marked yet.
    pub fn mark(self, work: &mut [u8], x: usize, y: usize) -> bool
        requires room { Room self work.old }
        requires x_le_names { (x ≤ self.names) × (y ≤ self.names) }
        ensures { Put self x y work.old work.new result }
    {
        let i = self.place(x, y);
        let byte = work[i];
        let bit = (byte >> (y % 8)) % 2;
        if bit == 1 {
            return false;
        }
        work[i] = byte | (1 << (y % 8));
        true
    }

    // Sets the rows of a square to 0.
    pub fn clear_rows(self, work: &mut [u8])
        requires { Room self work.old }
        ensures { Touches self work.old work.new × Unmarked self work.new }
    {
        let width = width(self.names);
        let span = (self.names + 1) * width;
        work[self.base..self.base + span].fill(0);
    }
}
