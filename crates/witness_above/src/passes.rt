// Passes over all names, until nothing is left to take or the pair asked for is lost.
ghost use Rattle.std.specs.Prelude.{◌≡◌, ◌≤◌, length};
ghost use Rattle.witness_above.specs.Passes.{ToGo, ToNotice, Went, Passed, Done};

use crate::turns::{turn_chosen, turn_edged};
use layout::Given;
use release::ConceptName;

// Turns for all names.
fn pass(
    given: &Given,
    work: &mut [u8],
    rows: &mut [u32],
    numbers: &mut [u32],
    asked: ConceptName,
    count: usize,
) -> usize
    requires { ToGo given.now asked.0 count rows.old numbers.old work.old }
    ensures { Passed given.now asked.0 given.now.layout.names count rows.old rows.new numbers.old numbers.new work.old work.new result }
{
    let mut written = count;
    for name in 0..given.layout.names {
        let name = ConceptName(name);
        let named = turn_chosen(given, work, rows, numbers, asked, name, written);
        written = turn_edged(given, work, rows, numbers, asked, name, named);
    }
    written
}

// Notes the row of the filler of the name's edge: whether it has changed since it was last noted. Only a hint where to look.
fn notice(given: &Given, numbers: &[u32], seen: &mut [u32], name: usize) -> bool
    requires { ToNotice given.now.layout.names name numbers.now seen.old }
    ensures { length seen.new ≡ length seen.old }
{
    if given.edges[name].is_empty() {
        return false;
    }
    let number = numbers[given.first.filler(name)];
    let changed = number != seen[name];
    seen[name] = number;
    changed
}

// Turns for the edges whose filler's row has changed since their last turn.
fn follow(
    given: &Given,
    work: &mut [u8],
    rows: &mut [u32],
    numbers: &mut [u32],
    seen: &mut [u32],
    asked: ConceptName,
    count: usize,
) -> usize
    requires go { ToGo given.now asked.0 count rows.old numbers.old work.old }
    requires notes { given.now.layout.names ≤ length seen.old }
    ensures went { Went given.now asked.0 count rows.old rows.new numbers.old numbers.new work.old work.new result }
    ensures notes { length seen.new ≡ length seen.old }
{
    let mut written = count;
    for name in 0..given.layout.names {
        if notice(given, numbers, seen, name) {
            written = turn_edged(
                given,
                work,
                rows,
                numbers,
                asked,
                ConceptName(name),
                written,
            );
        }
    }
    written
}

// Such turns until they write nothing.
fn chase(
    given: &Given,
    work: &mut [u8],
    rows: &mut [u32],
    numbers: &mut [u32],
    seen: &mut [u32],
    asked: ConceptName,
    count: usize,
) -> usize
    requires go { ToGo given.now asked.0 count rows.old numbers.old work.old }
    requires notes { given.now.layout.names ≤ length seen.old }
    ensures went { Went given.now asked.0 count rows.old rows.new numbers.old numbers.new work.old work.new result }
    ensures notes { length seen.new ≡ length seen.old }
{
    let mut written = count;
    loop {
        let more = follow(given, work, rows, numbers, seen, asked, written);
        if more == written {
            return more;
        }
        written = more;
    }
}

// Passes until one writes nothing: the pair asked for is lost, or nothing is left to take. Between them only what has changed is looked at.
pub fn close(
    given: &Given,
    work: &mut [u8],
    rows: &mut [u32],
    numbers: &mut [u32],
    seen: &mut [u32],
    asked: ConceptName,
) -> usize
    requires go { ToGo given.now asked.0 0 rows.old numbers.old work.old }
    requires notes { given.now.layout.names ≤ length seen.old }
    ensures { Done given.now asked.0 rows.old rows.new numbers.old numbers.new work.old work.new result }
{
    let mut written = 0;
    loop {
        let more = pass(given, work, rows, numbers, asked, written);
        if more == written {
            return more;
        }
        written = chase(given, work, rows, numbers, seen, asked, more);
    }
}
