// The cyclic code of the telegrams: remainders by f, g and f*g, check bits, and the turn of a window.
#![tactic(auto)]

pub mod check_bits;
mod division;
pub mod divisors;
pub mod remainder;
pub mod turning;
