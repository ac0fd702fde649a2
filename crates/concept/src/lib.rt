// A question's concept as bytes: 0 is ⊤; 1 and a name; 2 and two concepts; 3, a role and a concept. What these bytes mean is said in
// specs/Bytes; the calls that read them are in the crate outline.
#![tactic(auto)]

// The most bytes of a concept.
pub const LONGEST: usize = 255;
