// Rows that are well formed, and keep to a signature.
ghost use Rattle.std.specs.Prelude.{◌≡◌, ◌+◌, ◌*◌, ◌≤◌, length};
ghost use Rattle.el.proofs.Tests.{Tells};
ghost use Rattle.release.specs.Files.{most_roles};
ghost use Rattle.row_evaluation.specs.Forms.{IsFormed, AllFormed};

use crate::rows::{Form, read_row};
use signature::LentSignature;

// Whether row i is well formed.
fn is_row(signature: &LentSignature, rows: &[u32], i: usize) -> bool
    requires few { signature.now.roles ≤ most_roles }
    requires inside { 3 * i + 3 ≤ length rows.now }
    ensures { Tells result (IsFormed signature.now rows.now i) }
{
    let Some(form) = read_row(rows, i) else {
        return false;
    };
    match form {
        Form::Top => true,
        Form::Name(name) => signature.has_name(name),
        Form::Conjunction(one, other) => one < i && other < i,
        Form::Restriction(role, over) => over < i && signature.has_role(role),
    }
}

// Whether the first rows are all well formed.
pub fn all_rows(signature: &LentSignature, rows: &[u32], count: usize) -> bool
    requires few { signature.now.roles ≤ most_roles }
    requires inside { 3 * count ≤ length rows.now }
    ensures { Tells result (AllFormed signature.now rows.now count) }
{
    for i in 0..count {
        if !is_row(signature, rows, i) {
            return false;
        }
    }
    true
}
