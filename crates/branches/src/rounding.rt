// The rules by which a share is rounded.
ghost use Rattle.std.specs.Prelude.{◌≡◌, ◌*◌, ◌≤◌};
ghost use Rattle.release.specs.Files.{most_names};
ghost use Rattle.branches.specs.Shares.{rule_number, HasRuleNumber, share_down, IsNearest, IsShare};

use crate::refusals::SheetRefusal;
use std::cmp::Ordering;

// Rule 1 rounds down, rule 2 to the nearest, with an exact half to the even neighbour.
#[derive(Clone, Copy, Debug, PartialEq, Eq)]
pub enum Rounding {
    Down,
    ToNearest,
}

// The rule that a number stands for.
impl TryFrom<usize> for Rounding {
    type Error = SheetRefusal;

    ghost try_from_gives = { HasRuleNumber };

    fn try_from(number: usize) -> Result<Self, SheetRefusal> {
        match number {
            1 => Ok(Rounding::Down),
            2 => Ok(Rounding::ToNearest),
            _ => Err(SheetRefusal::NoRule),
        }
    }
}

impl Rounding {
    // The share of the names reported, in thousandths.
    pub fn share(self, reported: u32, chosen: u32) -> u32
        requires { reported ≤ 4 * most_names }
        ensures { IsShare (rule_number self) reported chosen result }
    {
        match self {
            Rounding::Down => share_down(reported, chosen),
            Rounding::ToNearest => share_to_nearest(reported, chosen),
        }
    }
}

fn share_down(reported: u32, chosen: u32) -> u32
    requires { reported ≤ 4 * most_names }
    ensures { result ≡ share_down reported chosen }
{
    (reported * 1000).checked_div(chosen).unwrap_or(0)
}

fn share_to_nearest(reported: u32, chosen: u32) -> u32
    requires { reported ≤ 4 * most_names }
    ensures { IsNearest reported chosen result }
{
    if chosen == 0 {
        return 0;
    }
    let whole = reported * 1000 / chosen;
    let rest = reported * 1000 % chosen;
    match (2 * rest).cmp(&chosen) {
        Ordering::Less => whole,
        Ordering::Equal => whole + whole % 2,
        Ordering::Greater => whole + 1,
    }
}
