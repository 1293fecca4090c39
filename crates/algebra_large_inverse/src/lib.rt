// Large matrices of f64 in one lent slice: elimination in place, back substitution, and the inverse. Nothing here knows a size.
#![tactic(auto)]

pub mod back;
pub mod solve;
