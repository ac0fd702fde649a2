// What both calls are lent, judged: refusals in their order.
ghost use Rattle.std.specs.Prelude.{◌≡◌, ◌≤◌, ltb};
ghost use Rattle.release.specs.Files.{most_names};
ghost use Rattle.release.specs.Refusals.{told};
ghost use Rattle.meanings.specs.Refusals.{compare_refusal};
ghost use Rattle.witness.specs.Lent.{check_length};
ghost use Rattle.witness.specs.Refusals.{show_refusal};
ghost use Rattle.witness.specs.Showing.{lent_to_show};
ghost use Rattle.witness.specs.Checking.{lent_to_check};

use crate::lent::rows_needed;
use crate::refusals::ShowRefusal;
use meanings::{CompareRefusal, Compared, lacks_work};
use signature::signature_fault;

// Whether work memory is shorter than a check of this many rows needs: for each row two bytes for each node more than a comparison needs.
// That can pass any width, so this divides.
fn lacks_check_work(length: usize, names: usize, count: usize) -> bool
    requires { names ≤ most_names }
    ensures { result ≡ ltb length (check_length names count) }
{
    if lacks_work(length, names) {
        return true;
    }
    let rest = length - marks::work_length(names);
    rest / (2 * (names + 1)) < count
}

// The counts, if the signature is one, and work memory is long enough to check this many rows. Here and below the caller goes on with the
// releases and not with the counts: with them it is a comparison's answer, by the same definitions.
pub fn judge_check(
    counts: Compared,
    signature: &[u8],
    row_count: usize,
    work_length: usize,
) -> Result<Compared, CompareRefusal>
    requires { counts.names ≤ most_names }
    ensures { told compare_refusal result ≡ lent_to_check signature.now row_count work_length counts }
{
    let names = usize::from(counts.names);
    signature_fault(signature, names, usize::from(counts.roles))?;
    if lacks_check_work(work_length, names, row_count) {
        return Err(CompareRefusal::ShortWork);
    }
    Ok(counts)
}

// The counts, if the signature is one, and work memory and rows are long enough for the station.
pub fn judge_show(
    counts: Compared,
    signature: &[u8],
    row_count: usize,
    work_length: usize,
) -> Result<Compared, ShowRefusal>
    requires { counts.names ≤ most_names }
    ensures { told show_refusal result ≡ lent_to_show signature.now row_count work_length counts }
{
    let names = usize::from(counts.names);
    signature_fault(signature, names, usize::from(counts.roles))?;
    if lacks_work(work_length, names) {
        return Err(ShowRefusal::Comparison(CompareRefusal::ShortWork));
    }
    if row_count < rows_needed(names) {
        return Err(ShowRefusal::FewRows);
    }
    Ok(counts)
}
