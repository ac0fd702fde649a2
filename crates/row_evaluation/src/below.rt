// The nodes that lie below a row, by what lies below earlier rows.
ghost use Rattle.std.specs.Prelude.{◌≡◌, ◌+◌, ◌*◌, ◌≤◌, ◌<◌, length};
ghost use Rattle.el.proofs.Tests.{Tells};
ghost use Rattle.marks.specs.Squares.{Marked};
ghost use Rattle.row_evaluation.specs.RowForms.{FormIn};
ghost use Rattle.row_evaluation.specs.Cells.{RowRoom, Adds};
ghost use Rattle.row_evaluation.specs.Below.{Setting, SuccessorIn, Reaches, BelowBy, BlankBelow, BelowFilled};
ghost use Rattle.row_evaluation.specs.Differing.{ToDifferAbove, DiffersAbove};

use crate::Evaluation;
use crate::rows::{Form, read_row};
use release::{ConceptName, RoleIndex};

impl<'a> Evaluation<'a> {
    // Puts the nodes into row i that lie below the name b.
    pub fn put_below(&self, work: &mut [u8], i: usize, b: usize)
        requires setting { Setting self.now work.old }
        requires room { RowRoom self.now.base self.now.square.names i work.old }
        requires b_le_names { b ≤ self.now.square.names }
        ensures { Adds self.now.base self.now.square.names i (λ x. Marked self.now.square work.old x b) work.old work.new }
    {
        for x in 0..=self.square.names {
            if self.square.is_marked(work, x, b) {
                self.put(work, i, x);
            }
        }
    }

    // Whether row j has a node that the role leads to from the name b by its axiom.
    fn has_successor(&self, work: &[u8], j: usize, role: RoleIndex, b: usize) -> bool
        requires setting { Setting self.now work.now }
        requires room { RowRoom self.now.base self.now.square.names j work.now }
        requires b_lt_names { b < self.now.square.names }
        ensures { Tells result (SuccessorIn self.now work.now j role.0 b) }
    {
        let Some(filler) = self.terminology.successor(b, role) else {
            return false;
        };
        self.holds(work, j, filler)
    }

    // Puts the nodes into row i that lie below ∃ of the role over row j.
    pub fn put_some(&self, work: &mut [u8], i: usize, role: RoleIndex, j: usize)
        requires setting { Setting self.now work.old }
        requires room { RowRoom self.now.base self.now.square.names i work.old }
        requires earlier { j < i }
        ensures { Adds self.now.base self.now.square.names i (Reaches self.now work.old j role.0) work.old work.new }
    {
        for b in 0..self.square.names {
            if self.has_successor(work, j, role, b) {
                self.put_below(work, i, b);
            }
        }
    }

    // Puts the nodes below row i, of this form, into it.
    fn put_form(&self, work: &mut [u8], i: usize, form: Form)
        requires setting { Setting self.now work.old }
        requires room { RowRoom self.now.base self.now.square.names i work.old }
        requires form { FormIn self.now.square.names i form }
        ensures { Adds self.now.base self.now.square.names i (BelowBy self.now work.old form) work.old work.new }
    {
        match form {
            Form::Top => self.cells().put_all(work, i),
            Form::Name(name) => self.put_below(work, i, name.0),
            Form::Conjunction(one, other) => self.cells().put_both(work, i, one, other),
            Form::Restriction(role, over) => self.put_some(work, i, role, over),
        }
    }

    // Fills the bytes of the first rows, each by those before it.
    fn fill_below(&self, work: &mut [u8], rows: &[u32], count: usize)
        requires { BlankBelow self.now rows.now count work.old }
        ensures { BelowFilled self.now rows.now count work.old work.new }
    {
        for i in 0..count {
            if let Some(form) = read_row(rows, i) {
                self.put_form(work, i, form);
            }
        }
    }
}

// Whether the row with this number, the last, lies above the name by the first release and not by the second: whether the name is one of the
// nodes below it by the first, and not by the second.
pub fn differs_above(
    first: &Evaluation,
    second: &Evaluation,
    work: &mut [u8],
    rows: &[u32],
    last: usize,
    name: ConceptName,
) -> bool
    requires { ToDifferAbove first.now second.now rows.now last name.0 work.old }
    ensures { DiffersAbove first.now second.now rows.now last name.0 work.old work.new result }
{
    first.fill_below(work, rows, last + 1);
    second.fill_below(work, rows, last + 1);
    first.holds(work, last, name.0) && !second.holds(work, last, name.0)
}
