// Large matrices of f64 in one lent slice: whole matrices cleared, copied, added and multiplied, and products with narrow ones. Nothing here knows a size.
#![tactic(auto)]

pub mod narrow;
pub mod whole;
