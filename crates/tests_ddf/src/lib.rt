// The Satterthwaite test (ddf).
#![tactic(auto)]

pub mod components;
pub mod pooled;
pub mod satterthwaite;
pub mod starts;
pub mod variance;
