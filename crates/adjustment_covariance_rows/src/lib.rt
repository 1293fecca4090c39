// The rows of the Gs, on lent slices, made a part of a row at a time. Nothing here knows a size.
#![tactic(auto)]

pub mod cells;
pub mod rows;
