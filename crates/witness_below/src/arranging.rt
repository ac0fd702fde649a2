// Where all is kept while a right report is written: the rows of the inclusions of both releases one after the other, and then the pairs.
ghost use Rattle.std.specs.Prelude.{◌≤◌, ◌≡◌, length};
ghost use Rattle.release.specs.Files.{most_names};
ghost use Rattle.marks.specs.Squares.{span};
ghost use Rattle.witness_below.specs.Arranging.{ClearedBetween, ToArrange, Arranged};

// Writes 0 from one place up to another: a name for one `fill`, so that its contract says which bytes are as before.
fn clear_between(work: &mut [u8], from: usize, end: usize)
    requires { (from ≤ end) × (end ≤ length work.old) }
    ensures { ClearedBetween from end work.old work.new }
{
    work[from..end].fill(0);
}

// The bytes of the rows of a square. Crate marks reckons this too, but has a definition of it alone for other crates.
fn span(names: usize) -> usize
    requires { names ≤ most_names }
    ensures { result ≡ span names }
{
    (names + 1) * (names / 8 + 1)
}

// Arranges memory that is prepared for two releases. The bytes of the rows of a square.
pub fn arrange(work: &mut [u8], names: usize) -> usize
    requires { ToArrange names work.old }
    ensures { Arranged names work.old work.new result }
{
    let span = span(names);
    let size = marks::size(names);
    work.copy_within(size..size + span, span);
    clear_between(work, 2 * span, 2 * span + 3 * size);
    span
}
