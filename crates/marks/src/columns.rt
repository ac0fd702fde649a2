// Columns one after the other, for a loop that does not write the memory where they stand: all of them, in their order.
ghost use Rattle.std.specs.Prelude.{◌≡◌, ◌≤◌};
ghost use Rattle.std.specs.Iterator.{at_most};
ghost use Rattle.marks.specs.Squares.{Room, Area};
ghost use Rattle.marks.specs.Lines.{Spans};
ghost use Rattle.marks.specs.Columns.{Walkable, Walks, Begins, columns_left, ColumnGiven, WalksOutside, GoesOutside, outside_from, outside_left, OutsideGiven};

use crate::Square;
use crate::line::next;

// What is left of a line: the columns from `next` on, up to `names`.
#[derive(Drop)]
pub struct Columns<'a> {
    line: &'a [u8],
    names: usize,
    next: usize,
}

// The columns of a line, up to `names`.
pub fn of<'a>(line: &'a [u8], names: usize) -> Columns<'a>
    requires spans { Spans names line.now }
    requires names_bound { names ≤ 65535 }
    ensures walk { Walkable names result }
    ensures all { Begins line.now result }
{
    Columns {
        line,
        names,
        next: 0,
    }
}

impl<'a> Iterator for Columns<'a> {
    type Item = usize;

    ghost can_next = { Walks };

    ghost next_gives = { ColumnGiven };

    ghost remaining = { λ s. at_most (columns_left s) };

    fn next(&mut self) -> Option<usize> {
        let found = next(self.line, self.names, self.next)?;
        self.next = found + 1;
        Some(found)
    }
}

impl Square {
    // The columns of row x of the k-th square of hints (see hints). Where there is no room for hints there are none.
    pub fn hinted<'a>(self, work: &'a [u8], k: usize, x: usize) -> Columns<'a>
        requires area { Area self work.now }
        requires k_bound { (k ≤ 4) × x ≤ self.names }
        ensures { Walkable self.names result }
    {
        if let Some(hint) = self.hints(k) {
            return of(hint.row(work, x), self.names);
        }
        Columns {
            line: self.row(work, x),
            names: self.names,
            next: self.names + 1,
        }
    }
}

// What is left of row x of a square, without the columns of a line: the columns from `from` on.
#[derive(Drop)]
pub struct Outside<'a> {
    square: Square,
    work: &'a [u8],
    x: usize,
    line: &'a [u8],
    from: usize,
}

impl Square {
    // The columns of row x that are marked and not in the line.
    pub fn outside<'a>(self, work: &'a [u8], x: usize, line: &'a [u8]) -> Outside<'a>
        requires room { Room self work.now }
        requires x_le_names { x ≤ self.names }
        requires spans { Spans self.names line.now }
        ensures walk { WalksOutside self work.now x line.now result }
        ensures all { outside_from result ≡ 0 }
    {
        Outside {
            square: self,
            work,
            x,
            line,
            from: 0,
        }
    }
}

impl<'a> Iterator for Outside<'a> {
    type Item = usize;

    ghost can_next = { GoesOutside };

    ghost next_gives = { OutsideGiven };

    ghost remaining = { λ s. at_most (outside_left s) };

    fn next(&mut self) -> Option<usize> {
        let square = self.square;
        let column = square.next_outside(self.work, self.x, self.line, self.from)?;
        self.from = column + 1;
        Some(column)
    }
}
