// One sheet for many branches: the same two releases compared over one signature after another. What the call is lent stands in separate
// parameters, as C lends it.
#![tactic(auto)]

ghost use Rattle.branches.specs.Sheets.{Says};

use crate::filling::fill;
use crate::judging::judge;
pub use crate::refusals::SheetRefusal;
use crate::rounding::Rounding;
use crate::row::Row;
use meanings::{Compared, read_releases};
use release::table::Table;

pub mod filling;
pub mod judging;
mod refusals;
pub mod rounding;
pub mod row;
pub mod values;

// Fills a row for each of `count` signatures, in their order, with a share by the rule of this number, or refuses, which changes nothing.
pub fn compare_branches(
    first: &[u8],
    second: &[u8],
    signatures: &[u8],
    count: usize,
    rule: usize,
    work: &mut [u8],
    rows: &mut [Row],
) -> Result<Compared, SheetRefusal>
    ensures { Says first.now second.now signatures.now count rule rows.old rows.new work.old work.new result }
{
    // Local arrays, since there is no heap.
    let mut first_table = Table::BLANK;
    let mut second_table = Table::BLANK;
    let (counts, releases) = read_releases(first, second, &mut first_table, &mut second_table)?;
    let rounding = Rounding::try_from(rule)?;
    let counts = judge(counts, signatures, count, rows.len(), work.len())?;
    fill(&releases, signatures, rounding, work, &mut rows[..count]);
    Ok(counts)
}
