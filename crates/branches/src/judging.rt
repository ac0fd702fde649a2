// What a sheet is lent, judged: refusals in their order.
ghost use Rattle.std.specs.Prelude.{◌≡◌, ◌≤◌};
ghost use Rattle.release.specs.Files.{most_names, most_roles};
ghost use Rattle.release.specs.Refusals.{told};
ghost use Rattle.branches.specs.Refusals.{sheet_refusal};
ghost use Rattle.branches.specs.Sheets.{lent_sheet};

use crate::refusals::SheetRefusal;
use meanings::{CompareRefusal, Compared, lacks_work};
use signature::signature_fault;

// A sheet's limit, by a name of its own: `Sheet::BRANCHES` says whose it is where it is used, and a constant alone is no shorter.
#[derive(Clone, Copy, Debug, PartialEq, Eq)]
pub struct Sheet {}

impl Sheet {
    pub const BRANCHES: usize = 64;
}

// The counts, if there are not too many branches, the signatures are ones, and rows and work memory are long enough. All signatures together are
// tested as one, of as many names as they have bytes.
pub fn judge(
    counts: Compared,
    signatures: &[u8],
    count: usize,
    row_count: usize,
    work_length: usize,
) -> Result<Compared, SheetRefusal>
    requires { (counts.names ≤ most_names) × (counts.roles ≤ most_roles) }
    ensures { told sheet_refusal result ≡ lent_sheet signatures.now count row_count work_length counts }
{
    if Sheet::BRANCHES < count {
        return Err(SheetRefusal::ManyBranches);
    }
    let names = usize::from(counts.names);
    let length = count * (names + usize::from(counts.roles));
    signature_fault(signatures, length, 0)?;
    if row_count < count {
        return Err(SheetRefusal::FewRows);
    }
    if lacks_work(work_length, names) {
        return Err(SheetRefusal::Comparison(CompareRefusal::ShortWork));
    }
    Ok(counts)
}
