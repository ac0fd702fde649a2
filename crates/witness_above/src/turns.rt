// A turn for a name, or for its edge: what can be taken by it is taken. Each node has a concept, ⊤ at first, that lies above it by the first
// release. A pair x, y of nodes is held, as a byte 1, until it is lost: the concept of x does not lie above y by the second release. A turn
// joins a name, or ∃ over the concept of a node, to the concepts of the nodes that lie below it, where a pair is lost by that.
ghost use Rattle.std.specs.Prelude.{◌≡◌, ℕ, ◌<◌};
ghost use Rattle.layout.specs.Tables.{HasEdge};
ghost use Rattle.row_evaluation.specs.Cells.{Holds};
ghost use Rattle.witness_above.specs.Left.{ToTurn, NameTurned, Edge, EdgeTurned};
ghost use Rattle.witness_above.specs.Passes.{Chosen, NameQuiet, EdgeQuiet, ToGo, Went};

use crate::joining::{first_losing, join_all};
use crate::pairs::{clear_line, holds, line_edge, line_name};
use crate::rows::put_restriction;
use layout::Given;
use release::{ConceptName, RoleIndex};
use row_evaluation::rows::{Form, put_row, wide};

// Joins the name to the concept of each node below it by the first release.
fn turn_name(
    given: &Given,
    work: &mut [u8],
    rows: &mut [u32],
    numbers: &mut [u32],
    asked: ConceptName,
    name: ConceptName,
    count: usize,
) -> usize
    requires { ToTurn given.now asked.0 count name.0 rows.old numbers.old work.old }
    ensures { NameTurned given.now asked.0 count name.0 rows.old rows.new numbers.old numbers.new work.old work.new result }
{
    clear_line(given.layout, work);
    line_name(given, work, name.0);
    let Some(x) = first_losing(given.layout, work, asked.0, name.0) else {
        return count;
    };
    put_row(rows, count, Form::Name(name));
    join_all(given.layout, work, rows, numbers, asked, name, x, count)
}

// Joins ∃ of the role over the concept of the filler of the name's axiom to the concept of each node below the name by the first release.
fn turn_edge(
    given: &Given,
    work: &mut [u8],
    rows: &mut [u32],
    numbers: &mut [u32],
    asked: ConceptName,
    name: ConceptName,
    role: RoleIndex,
    count: usize,
) -> usize
    requires turn { ToTurn given.now asked.0 count name.0 rows.old numbers.old work.old }
    requires edge { Edge given.now name.0 role.0 }
    ensures { EdgeTurned given.now asked.0 count name.0 role.0 rows.old rows.new numbers.old numbers.new work.old work.new result }
{
    let node = given.first.filler(name.0);
    let old = wide(numbers[node]);
    clear_line(given.layout, work);
    line_edge(given, work, role, node);
    let Some(x) = first_losing(given.layout, work, asked.0, name.0) else {
        return count;
    };
    let row = put_restriction(rows, role, old, count);
    join_all(given.layout, work, rows, numbers, asked, name, x, row)
}

// A turn for the name, if it is chosen, while the pair asked for is held.
pub fn turn_chosen(
    given: &Given,
    work: &mut [u8],
    rows: &mut [u32],
    numbers: &mut [u32],
    asked: ConceptName,
    name: ConceptName,
    count: usize,
) -> usize
    requires go { ToGo given.now asked.0 count rows.old numbers.old work.old }
    requires name_lt_names { name.0 < given.now.layout.names }
    ensures went { Went given.now asked.0 count rows.old rows.new numbers.old numbers.new work.old work.new result }
    ensures quiet { Holds work.old given.now.layout.marks given.now.layout.names asked.0 asked.0 → result ≡ count → Chosen given.now name.0
        → NameQuiet given.now work.old name.0 }
{
    if given.has_name(name.0) && holds(given.layout, work, asked.0, asked.0) {
        return turn_name(given, work, rows, numbers, asked, name, count);
    }
    count
}

// A turn for the edge of the name with the role, while the pair asked for is held.
fn turn_role(
    given: &Given,
    work: &mut [u8],
    rows: &mut [u32],
    numbers: &mut [u32],
    asked: ConceptName,
    name: ConceptName,
    role: RoleIndex,
    count: usize,
) -> usize
    requires go { ToGo given.now asked.0 count rows.old numbers.old work.old }
    requires edge { Edge given.now name.0 role.0 }
    ensures went { Went given.now asked.0 count rows.old rows.new numbers.old numbers.new work.old work.new result }
    ensures quiet { Holds work.old given.now.layout.marks given.now.layout.names asked.0 asked.0 → result ≡ count
        → EdgeQuiet given.now work.old name.0 role.0 }
{
    if holds(given.layout, work, asked.0, asked.0) {
        return turn_edge(given, work, rows, numbers, asked, name, role, count);
    }
    count
}

// Such a turn for each role of the edge of the name.
pub fn turn_edged(
    given: &Given,
    work: &mut [u8],
    rows: &mut [u32],
    numbers: &mut [u32],
    asked: ConceptName,
    name: ConceptName,
    count: usize,
) -> usize
    requires go { ToGo given.now asked.0 count rows.old numbers.old work.old }
    requires name_lt_names { name.0 < given.now.layout.names }
    ensures went { Went given.now asked.0 count rows.old rows.new numbers.old numbers.new work.old work.new result }
    ensures quiet { Holds work.old given.now.layout.marks given.now.layout.names asked.0 asked.0 → result ≡ count
        → (r : ℕ) → HasEdge given.now.edges.now name.0 r → EdgeQuiet given.now work.old name.0 r }
{
    let roles = given.edges[name.0];
    let mut written = count;
    let mut next = 0;
    while let Some(role) = roles.next(next) {
        next = role.0 + 1;
        written = turn_role(given, work, rows, numbers, asked, name, role, written);
    }
    written
}
