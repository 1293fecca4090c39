// The Kenward–Roger test of one contrast (kr_modcomp).
#![tactic(auto)]

pub mod full_rank;
pub mod modcomp;
