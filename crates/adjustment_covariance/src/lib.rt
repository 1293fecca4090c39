// The covariance side of the Kenward–Roger adjustment, on lent slices: the blocks of random effects, and what comes of the Hs, for any number of specimens. The
// arrays are document 01's limits: three blocks, three thetas, six coefficients.
#![tactic(auto)]

pub mod blocks;
pub mod information;
