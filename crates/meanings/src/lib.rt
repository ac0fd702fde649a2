// The meaning of releases compared. What a call is lent stands in separate parameters, as C lends it.
#![tactic(auto)]

ghost use Rattle.std.specs.Prelude.{◌≡◌, ltb, ◌≤◌, IfOk};
ghost use Rattle.release.specs.Files.{most_names, most_roles};
ghost use Rattle.release.specs.Refusals.{file_refusal, told};
ghost use Rattle.release.specs.Tables.{Blank};
ghost use Rattle.meanings.specs.Comparing.{work_length, agreed, lent, Says};
ghost use Rattle.meanings.specs.Refusals.{compare_refusal};
ghost use Rattle.meanings.specs.Reading.{BothRead, ReleasesRead};

pub use crate::refusals::CompareRefusal;
use comparison::Releases;
use release::table::Table;
use release::terminology::Terminology;
use release::{Counts, FileRefusal, Release, read_release};
use role_result::RoleComparison;
use signature::signature_fault;

mod refusals;

// What was compared: the counts of names and roles, which both releases have.
#[derive(Clone, Copy, Debug, PartialEq, Eq)]
pub struct Compared {
    pub names: u16,
    pub roles: u8,
}

impl Compared {
    // As many bytes as the role result of any release needs.
    pub const ROLE_RESULT: usize = Release::ROLES * Release::ROLES;
}

// Whether work memory is shorter than a comparison of releases with this many names needs.
pub fn lacks_work(length: usize, names: usize) -> bool
    requires { names ≤ most_names }
    ensures { result ≡ ltb length (work_length names) }
{
    length < marks::work_length(names)
}

// What two releases share, by what checking each answers: their counts, or the first refusal that is met.
pub fn agree(
    first: Result<Counts, FileRefusal>,
    second: Result<Counts, FileRefusal>,
) -> Result<Compared, CompareRefusal>
    requires { IfOk first (λ c. (c.names ≤ most_names) × (c.roles ≤ most_roles)) }
    ensures { told compare_refusal result ≡ agreed (told file_refusal first) (told file_refusal second) }
{
    let one = first.map_err(CompareRefusal::First)?;
    let two = second.map_err(CompareRefusal::Second)?;
    // Field by field, since the numbers of axioms may differ.
    if one.names != two.names || one.roles != two.roles {
        return Err(CompareRefusal::DifferentCounts);
    }
    // By `as`: an accepted release has few names and roles, so both fit, and `try_from` has an arm that is never taken.
    Ok(Compared {
        names: one.names as u16,
        roles: one.roles as u8,
    })
}

// Reads two releases into blank tables: the counts that they share, or the first refusal that they meet.
pub fn read_both(
    first: &[u8],
    second: &[u8],
    first_table: &mut Table,
    second_table: &mut Table,
) -> Result<Compared, CompareRefusal>
    requires first_blank { Blank first_table.old }
    requires second_blank { Blank second_table.old }
    ensures { BothRead first.now second.now first_table.new second_table.new result }
{
    let one = read_release(first, first_table);
    let two = read_release(second, second_table);
    agree(one, two)
}

// Reads two releases into blank tables and puts them together, as they are compared, with the counts that they share.
pub fn read_releases<'a>(
    first: &'a [u8],
    second: &'a [u8],
    first_table: &'a mut Table,
    second_table: &'a mut Table,
) -> Result<(Compared, Releases<'a>), CompareRefusal>
    requires first_blank { Blank first_table.old }
    requires second_blank { Blank second_table.old }
    ensures { ReleasesRead first.now second.now result }
{
    let counts = read_both(first, second, first_table, second_table)?;
    let releases = Releases {
        first: Terminology {
            file: first,
            table: first_table,
        },
        second: Terminology {
            file: second,
            table: second_table,
        },
        names: usize::from(counts.names),
        roles: usize::from(counts.roles),
    };
    Ok((counts, releases))
}

// The counts, if the signature is one and the result, the role result and the work memory are long enough.
fn judge(
    counts: Compared,
    signature: &[u8],
    result_length: usize,
    role_result_length: usize,
    work_length: usize,
) -> Result<Compared, CompareRefusal>
    requires { counts.names ≤ most_names }
    ensures { told compare_refusal result ≡ lent signature.now result_length role_result_length work_length counts }
{
    let names = usize::from(counts.names);
    let roles = usize::from(counts.roles);
    signature_fault(signature, names, roles)?;
    if result_length < names {
        return Err(CompareRefusal::ShortResult);
    }
    if role_result_length < roles * roles {
        return Err(CompareRefusal::ShortRoleResult);
    }
    if lacks_work(work_length, names) {
        return Err(CompareRefusal::ShortWork);
    }
    Ok(counts)
}

// Compares two releases over a signature: the byte of each name in the first result bytes and that of each two roles in the first bytes of the
// role result, or the refusal, which changes nothing.
pub fn compare_releases(
    first: &[u8],
    second: &[u8],
    signature: &[u8],
    result_bytes: &mut [u8],
    role_result: &mut [u8],
    work: &mut [u8],
) -> Result<Compared, CompareRefusal>
    ensures { Says first.now second.now signature.now result_bytes.old result_bytes.new role_result.old role_result.new work.old work.new result }
{
    // Local arrays, since there is no heap.
    let mut first_table = Table::BLANK;
    let mut second_table = Table::BLANK;
    let (counts, releases) = read_releases(first, second, &mut first_table, &mut second_table)?;
    let counts = judge(
        counts,
        signature,
        result_bytes.len(),
        role_result.len(),
        work.len(),
    )?;
    releases.compare_tables(signature, result_bytes, work);
    let roles = RoleComparison {
        signature: releases.lend(signature),
        first: releases.first,
        second: releases.second,
    };
    roles.write_role_result(role_result);
    Ok(counts)
}
