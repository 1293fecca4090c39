// The small dense algebra: its definitions and their laws, and the two kinds of number that it runs on. The code stands in the crates products, elimination, rotation, jacobi and large.

#![tactic(auto)]

pub mod scalar;

// A small matrix, by value: the cells up to the sizes given are in use, and zeros stand past them.
pub type Matrix<T> = [[T; 6]; 6];
