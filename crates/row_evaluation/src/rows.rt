// Rows as they are lent, three numbers a row: read and written by their form.
ghost use Rattle.std.specs.Prelude.{◌≡◌, ◌+◌, ◌*◌, ◌≤◌, length};
ghost use Rattle.concept_rows.specs.Lent.{row_at};
ghost use Rattle.row_evaluation.specs.RowForms.{most, form_of, numbers_of, Narrow, RowPut};

use release::{ConceptName, RoleIndex};

// What the concept of a row is made of: nothing, a name, the concepts of two rows, or a role and the concept of a row.
#[derive(Clone, Copy, Debug, PartialEq, Eq)]
pub enum Form {
    Top,
    Name(ConceptName),
    Conjunction(usize, usize),
    Restriction(RoleIndex, usize),
}

// The numbers that are lent, in the widths of the code.
pub fn narrow(x: usize) -> u32
    requires { x ≤ most }
    ensures { result ≡ x }
{
    x as u32
}

pub fn wide(x: u32) -> usize
    ensures { (result ≡ x) × (result ≤ most) }
{
    x as usize
}

// The form of row i, if its numbers say one.
pub fn read_row(rows: &[u32], i: usize) -> Option<Form>
    requires { 3 * i + 3 ≤ length rows.now }
    ensures { result ≡ form_of (row_at rows.now i) }
{
    let kind = rows[3 * i];
    let one = wide(rows[3 * i + 1]);
    let other = wide(rows[3 * i + 2]);
    match kind {
        0 => (one == 0 && other == 0).then_some(Form::Top),
        1 => (other == 0).then_some(Form::Name(ConceptName(one))),
        2 => Some(Form::Conjunction(one, other)),
        3 => Some(Form::Restriction(RoleIndex::numbered(one)?, other)),
        _ => None,
    }
}

// The three numbers of a row.
#[derive(Clone, Copy, Debug, PartialEq, Eq)]
struct Numbers {
    kind: u32,
    one: u32,
    other: u32,
}

impl Form {
    ghost use Rattle.std.specs.Prelude.{◌≡◌};
    ghost use Rattle.row_evaluation.specs.RowForms.{numbers_of, row_of, Narrow};

    // The numbers of a row of this form.
    fn numbers(self) -> Numbers
        requires { Narrow self }
        ensures { row_of result ≡ numbers_of self }
    {
        match self {
            Form::Top => Numbers {
                kind: 0,
                one: 0,
                other: 0,
            },
            Form::Name(name) => Numbers {
                kind: 1,
                one: narrow(name.0),
                other: 0,
            },
            Form::Conjunction(one, other) => Numbers {
                kind: 2,
                one: narrow(one),
                other: narrow(other),
            },
            Form::Restriction(role, over) => Numbers {
                kind: 3,
                one: u32::from(role.0),
                other: narrow(over),
            },
        }
    }
}

// Writes row i.
pub fn put_row(rows: &mut [u32], i: usize, form: Form)
    requires inside { 3 * i + 3 ≤ length rows.old }
    requires narrow { Narrow form }
    ensures { RowPut i (numbers_of form) rows.old rows.new }
{
    let numbers = form.numbers();
    rows[3 * i] = numbers.kind;
    rows[3 * i + 1] = numbers.one;
    rows[3 * i + 2] = numbers.other;
}
