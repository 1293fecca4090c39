// Bit-exact f64 arithmetic: plain helpers, the square root, and marked numbers.
#![tactic(auto)]

pub mod plain;
pub mod root;

// A value together with its mark: whether every step up to it was inside document 01's range.
#[derive(Clone, Copy)]
pub struct Marked {
    pub value: f64,
    pub inside: bool,
}
