// A number for each pair of a row and a column: three bytes, low byte first. It says that the pair is not asked for (UNASKED), that it is and has
// no row yet (OPEN), or that the row r shows it (r + ROW).
ghost use Rattle.std.specs.Prelude.{◌≡◌, ◌+◌, ◌*◌, ◌≤◌, length};
ghost use Rattle.witness_below.specs.Cells.{pair_of, most_value, CellRoom, Value, Pair, CellPut};

use layout::Layout;

pub const UNASKED: usize = 0;

pub const OPEN: usize = 1;

pub const ROW: usize = 2;

// The number of the pair x, y among all pairs.
pub fn pair(layout: Layout, x: usize, y: usize) -> usize
    requires { (x ≤ layout.names) × (y ≤ layout.names) }
    ensures { Pair layout.names x y result }
{
    x * (layout.names + 1) + y
}

// What is kept for a pair.
pub fn value(work: &[u8], base: usize, pair: usize) -> usize
    requires { base + 3 * pair + 3 ≤ length work.now }
    ensures { Value work.now base pair result }
{
    let at = base + 3 * pair;
    let low = usize::from(work[at]);
    let middle = usize::from(work[at + 1]);
    let high = usize::from(work[at + 2]);
    low + 256 * middle + 65536 * high
}

// Keeps a number for a pair.
pub fn put(work: &mut [u8], base: usize, pair: usize, value: usize)
    requires { (base + 3 * pair + 3 ≤ length work.old) × (value ≤ most_value) }
    ensures { CellPut base pair value work.old work.new }
{
    let at = base + 3 * pair;
    work[at] = (value % 256) as u8;
    work[at + 1] = (value / 256 % 256) as u8;
    work[at + 2] = (value / 65536) as u8;
}

// What is kept for the pair x, y.
pub fn cell(work: &[u8], layout: Layout, x: usize, y: usize) -> usize
    requires { CellRoom layout work.now × (x ≤ layout.names) × (y ≤ layout.names) }
    ensures { Value work.now layout.marks (pair_of layout.names x y) result }
{
    value(work, layout.marks, pair(layout, x, y))
}

// Keeps a number for the pair x, y.
pub fn put_cell(work: &mut [u8], layout: Layout, x: usize, y: usize, value: usize)
    requires { CellRoom layout work.old × (x ≤ layout.names) × (y ≤ layout.names) × (value ≤ most_value) }
    ensures { CellPut layout.marks (pair_of layout.names x y) value work.old work.new }
{
    put(work, layout.marks, pair(layout, x, y), value);
}
