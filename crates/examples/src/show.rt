// Cases of Show: first, second, side, name; the file that holds the part, its start, its bytes.
use crate::cases::{Case, number_in};
use crate::verdict::{Verdict, What, same, same_bytes};
use release::ConceptName;
use release::show::{axiom_place, show_axiom};

pub(crate) fn judge(case: &[u8]) -> Verdict {
    let Case([first, second, side, name, file, start, part, ..]) = Case::of(case, 7)?;
    let side = number_in(side);
    let name = ConceptName(number_in(name));
    same_bytes(show_axiom(first, second, side, name), part)?;
    let place = axiom_place(first, second, side, name);
    same(What::File, place.side, number_in(file))?;
    same(What::Start, place.start, number_in(start))?;
    same(What::Length, place.length, part.len())
}
