// The rows of a sheet, given the terminologies of its releases.
ghost use Rattle.std.specs.Prelude.{◌≡◌, ◌≤◌, length, take};
ghost use Rattle.release.specs.Files.{content_of};
ghost use Rattle.signature.specs.Bytes.{signature_of};
ghost use Rattle.el.specs.Answers.{comparison_bytes};
ghost use Rattle.comparison.specs.Compared.{Given, Ready};
ghost use Rattle.branches.specs.Filling.{Fits, RowsFilled};
ghost use Rattle.branches.specs.Rows.{RowOf};
ghost use Rattle.branches.specs.Shares.{rule_number};

use crate::rounding::Rounding;
use crate::row::{Row, tell};
use comparison::Releases;
use release::Release;
use release::roles::RoleSet;

// The row of one signature. The memory is left as it was; the edges are written over.
pub fn row_of(
    releases: &Releases,
    signature: &[u8],
    rounding: Rounding,
    edges: &mut [RoleSet],
    work: &mut [u8],
) -> Row
    requires given { Given signature.now releases.now work.old }
    requires ready { Ready releases.now work.old }
    requires edges_in_bounds { releases.now.names ≤ length edges.old }
    ensures row { RowOf (rule_number rounding) (take releases.now.names signature.now)
        (comparison_bytes releases.now.names (signature_of releases.now.names releases.now.roles signature.now)
        (content_of releases.now.first.file.now) (content_of releases.now.second.file.now)) result }
    ensures same { work.new ≡ work.old }
{
    let names = releases.names;
    // A local array, since there is no heap.
    let mut result = [0u8; Release::NAMES];
    releases.compare_prepared(signature, &mut result, edges, work);
    tell(&signature[..names], &result[..names], rounding)
}

// Fills a row for each signature: the releases are classified once, and the memory is 0 again as far as it is used.
pub fn fill(
    releases: &Releases,
    signatures: &[u8],
    rounding: Rounding,
    work: &mut [u8],
    rows: &mut [Row],
)
    requires { Fits releases.now signatures.now rows.old work.old }
    ensures { RowsFilled (rule_number rounding) releases.now signatures.now rows.old rows.new work.old work.new }
{
    releases.prepare(work);
    // A local array, since there is no heap, made once for all rows.
    let mut edges = [RoleSet::NONE; Release::NAMES];
    // Cut by place: a release may have neither names nor roles, and `chunks_exact` asks a length above 0.
    let length = releases.names + releases.roles;
    for (branch, row) in rows.iter_mut().enumerate() {
        let start = branch * length;
        let signature = &signatures[start..start + length];
        *row = row_of(releases, signature, rounding, &mut edges, work);
    }
    marks::clear(work, marks::work_length(releases.names));
}
