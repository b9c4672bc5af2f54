// Leaves on parts of a field: one element's numbers, and a load. The calls have made their checks before.
#![tactic(auto)]

pub mod element; // element.rt: one element's ten numbers
pub mod fill; // fill.rt: what many elements hold, and a load
