// The contrast basis (kr_modcomp).
#![tactic(auto)]

pub mod basis;
