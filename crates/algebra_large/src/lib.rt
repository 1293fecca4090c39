// Large matrices of f64 in one lent slice, each at an offset with a row stride: where a row starts, and the work on one row. Nothing here knows a size.
#![tactic(auto)]

pub mod rows;
