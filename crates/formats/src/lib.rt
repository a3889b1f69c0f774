// The two formats with their fixed numbers and polynomials.
#![tactic(auto)]

pub mod format;
pub mod register;
