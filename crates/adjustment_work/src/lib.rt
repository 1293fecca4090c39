// The lent slices of the covariance adjustment: where its matrices stand, and the Hs and the Os in them, for any number of specimens.
#![tactic(auto)]

pub mod squares;
pub mod stacks;
