//! Cases of the rules, over a suite of short functions.
#![tactic(auto)]

pub mod cases;
