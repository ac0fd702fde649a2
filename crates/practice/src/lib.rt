// Practice releases: drawn from a seed, the same at each site.
#![tactic(auto)]

ghost use Rattle.std.specs.Prelude.{◌≡◌, ◌==◌, ◌≤◌};
ghost use Rattle.release.specs.Files.{most_names_of};
ghost use Rattle.release.specs.Kinds.{numbered};
ghost use Rattle.output.specs.Places.{Put};
ghost use Rattle.practice.specs.Practice.{practice_pool};
ghost use Rattle.practice.specs.Making.{Makes};

use crate::axiom::number_of;
use crate::draws::Draws;
pub use crate::refusals::PracticeRefusal;
use output::{put_byte, write_whole};
use release::number::Version;
use release::{Kind, Release};

mod axiom;
mod draws;
mod file;
mod refusals;

// The release of a seed with so many names and roles, and its pool: the names that conjuncts are taken from.
#[derive(Clone, Copy, Debug, PartialEq, Eq)]
struct Practice<'a> {
    seed: u32,
    names: usize,
    roles: usize,
    pool: &'a [u8],
    ghost few: { names ≤ most_names_of 1 },
    ghost pooled: { pool.now ≡ practice_pool seed names roles },
}

fn is_kind_2(kind: Option<Kind>) -> bool
    ensures { result ≡ (numbered kind == 2) }
{
    let Some(kind) = kind else {
        return false;
    };
    number_of(kind) == 2
}

// Puts the names not of kind 2, and answers how many there are.
fn put_pool(seed: u32, names: usize, roles: usize, pool: &mut [u8]) -> usize
    requires { names ≤ most_names_of 1 }
    ensures { Put pool.old 0 (practice_pool seed names roles) pool.new result }
{
    let mut kinds = Draws { state: seed };
    let mut size = 0;
    for name in 0..names {
        if is_kind_2(kinds.kind(roles)) {
            continue;
        }
        size = put_byte(pool, size, name as u8);
    }
    size
}

// Writes the practice release of a seed as a file of version 1 to the start of the output, and answers its length; a refusal changes nothing.
pub fn make_practice(
    seed: u32,
    names: usize,
    roles: usize,
    output: &mut [u8],
) -> Result<usize, PracticeRefusal>
    ensures { Makes seed names roles output.old output.new result }
{
    if Version::One.most_names() < names {
        return Err(PracticeRefusal::ManyNames);
    }
    if Release::ROLES < roles {
        return Err(PracticeRefusal::ManyRoles);
    }
    let mut pool = [0u8; Release::NAMES_1];
    let size = put_pool(seed, names, roles, &mut pool);
    let practice = Practice {
        seed,
        names,
        roles,
        pool: &pool[..size],
    };
    write_whole(
        output,
        |output| practice.put(output),
        PracticeRefusal::ShortOutput,
    )
}
