// The names above a row, by what lies above earlier rows.
ghost use Rattle.std.specs.Prelude.{◌≡◌, ◌+◌, ◌*◌, ◌≤◌, ◌<◌, length};
ghost use Rattle.el.proofs.Tests.{Tells};
ghost use Rattle.release.specs.Tables.{kind_at, Shaped};
ghost use Rattle.row_evaluation.specs.RowForms.{FormIn};
ghost use Rattle.row_evaluation.specs.Cells.{RowRoom, Adds};
ghost use Rattle.row_evaluation.specs.Above.{PartsHold, RowBelow, FilledAbove, PlainAbove, ShapedBy, Upward, BlankAbove, AboveFilled};
ghost use Rattle.row_evaluation.specs.Differing.{ToDifferBelow, DiffersBelow};

use crate::Evaluation;
use crate::rows::{Form, read_row};
use release::{ConceptName, Kind, RoleIndex};

impl<'a> Evaluation<'a> {
    // Whether row k has all conjuncts of y.
    fn has_parts(&self, work: &[u8], k: usize, y: usize) -> bool
        requires shaped { ShapedBy self.now }
        requires room { RowRoom self.now.base self.now.square.names k work.now }
        requires joint { (y < self.now.square.names) × (kind_at self.now.terminology.table.now y ≡ 2) }
        ensures { Tells result (PartsHold self.now work.now k y) }
    {
        self.terminology
            .parts(y)
            .all(|part| self.holds(work, k, part))
    }

    // Whether row k lies below the node y.
    fn is_above(&self, work: &[u8], k: usize, y: usize) -> bool
        requires shaped { ShapedBy self.now }
        requires room { RowRoom self.now.base self.now.square.names k work.now }
        requires y_le_names { y ≤ self.now.square.names }
        ensures { Tells result (RowBelow self.now work.now k y) }
    {
        if y == self.square.names {
            return true;
        }
        if self.terminology.has_kind(y, Kind::DefinedConjunction) {
            return self.has_parts(work, k, y);
        }
        self.holds(work, k, y)
    }

    // Whether ∃ of the role over row k lies below the name y by a restriction that defines y.
    fn is_filled_above(&self, work: &[u8], role: RoleIndex, k: usize, y: usize) -> bool
        requires shaped { ShapedBy self.now }
        requires room { RowRoom self.now.base self.now.square.names k work.now }
        requires y_lt_names { y < self.now.square.names }
        ensures { Tells result (FilledAbove self.now work.now role.0 k y) }
    {
        if !self.terminology.has_kind(y, Kind::DefinedRestriction) {
            return false;
        }
        self.terminology.serves(role, self.terminology.role(y))
            && self.is_above(work, k, self.terminology.filler(y))
    }

    // Whether a row i of this form lies below the name y, which is not defined by a conjunction.
    fn is_plain_above(&self, work: &[u8], i: usize, form: Form, y: usize) -> bool
        requires upward { Upward self.now work.now }
        requires room { RowRoom self.now.base self.now.square.names i work.now }
        requires form { FormIn self.now.square.names i form }
        requires y_lt_names { y < self.now.square.names }
        ensures { Tells result (PlainAbove self.now work.now form y) }
    {
        if self.terminology.has_kind(y, Kind::DefinedConjunction) {
            return false;
        }
        match form {
            Form::Top => false,
            Form::Name(name) => self.square.is_marked(work, name.0, y),
            Form::Conjunction(one, other) => {
                self.holds(work, one, y) || self.holds(work, other, y)
            }
            Form::Restriction(role, over) => self.is_filled_above(work, role, over, y),
        }
    }

    // Puts the names above row i, of this form, into it.
    fn put_above(&self, work: &mut [u8], i: usize, form: Form)
        requires upward { Upward self.now work.old }
        requires room { RowRoom self.now.base self.now.square.names i work.old }
        requires form { FormIn self.now.square.names i form }
        ensures { Adds self.now.base self.now.square.names i (PlainAbove self.now work.old form) work.old work.new }
    {
        for y in 0..self.square.names {
            if self.is_plain_above(work, i, form, y) {
                self.put(work, i, y);
            }
        }
    }

    // Fills the bytes of the first rows, each by those before it.
    fn fill_above(&self, work: &mut [u8], rows: &[u32], count: usize)
        requires { BlankAbove self.now rows.now count work.old }
        ensures { AboveFilled self.now rows.now count work.old work.new }
    {
        for i in 0..count {
            if let Some(form) = read_row(rows, i) {
                self.put_above(work, i, form);
            }
        }
    }
}

// Whether the row with this number, the last, lies below the name by the first release and not by the second: whether the name is above it by
// the first, and not by the second.
pub fn differs_below(
    first: &Evaluation,
    second: &Evaluation,
    work: &mut [u8],
    rows: &[u32],
    last: usize,
    name: ConceptName,
) -> bool
    requires { ToDifferBelow first.now second.now rows.now last name.0 work.old }
    ensures { DiffersBelow first.now second.now rows.now last name.0 work.old work.new result }
{
    first.fill_above(work, rows, last + 1);
    second.fill_above(work, rows, last + 1);
    first.is_above(work, last, name.0) && !second.is_above(work, last, name.0)
}
