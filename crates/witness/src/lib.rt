// A concept to show the editor: written for a reported name, and checked from any editor. What a call is lent stands in separate parameters,
// as C lends it. A concept is rows of three numbers each, one row after another in a slice of numbers; numbers left over are no row.
#![tactic(auto)]

pub use crate::refusals::ShowRefusal;

mod asked;
pub mod checking;
mod judging;
mod lent;
mod refusals;
pub mod showing;
