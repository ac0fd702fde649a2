// Tries outside examples on the public calls: a line for each family of cases, with how many there
// were and how many came out differently, and before it a line for each difference.
// A failed write ends the program with its error. All memory is arrays, since there is no heap.
//
// The data files are made by tools/vectors.py, from vectors and from the tables in tools/.
#![tactic(auto)]

mod cases;
mod check;
mod compare;
mod concepts;
mod held;
mod memory;
mod pages;
mod practices;
mod printed;
mod questions;
mod rewrite;
mod rowchecks;
mod run;
mod sessions;
mod sheets;
mod show;
mod signatures;
mod starts;
mod steps;
mod texts;
mod verdict;

use run::family;
use std::io;

fn main(rt: HostRuntime) -> io::Result<()> {
    family(&rt, "check", check::judge)?;
    family(&rt, "show", show::judge)?;
    family(&rt, "refusals", check::judge)?;
    family(&rt, "shows", show::judge)?;
    family(&rt, "signatures", signatures::judge)?;
    family(&rt, "question", questions::judge)?;
    family(&rt, "question-roles", questions::judge)?;
    family(&rt, "questions", questions::judge)?;
    family(&rt, "deep", questions::judge)?;
    family(&rt, "compare", compare::judge)?;
    family(&rt, "compare-roles", compare::judge)?;
    family(&rt, "comparisons", compare::judge)?;
    family(&rt, "station", printed::station)?;
    family(&rt, "rewrite", rewrite::judge)?;
    family(&rt, "rewrites", rewrite::judge)?;
    family(&rt, "page", pages::judge)?;
    family(&rt, "pages", pages::judge)?;
    family(&rt, "practice", practices::judge)?;
    family(&rt, "practices", practices::judge)?;
    family(&rt, "sheet", sheets::judge)?;
    family(&rt, "sheets", sheets::judge)?;
    family(&rt, "lines", printed::sheet)?;
    family(&rt, "shown", concepts::judge)?;
    family(&rt, "concepts", concepts::judge)?;
    family(&rt, "rowcheck", rowchecks::judge)?;
    family(&rt, "rowchecks", rowchecks::judge)?;
    family(&rt, "starts", starts::judge)?;
    family(&rt, "held", held::judge)?;
    family(&rt, "steps", steps::judge)?;
    family(&rt, "edits", steps::judge)
}
