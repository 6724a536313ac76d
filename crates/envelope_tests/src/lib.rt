//! Tests of `cose_envelopes`, against cases and values from outside, and a suite whose keys have no algorithm.
#![tactic(auto)]

#[cfg(test)]
mod envelope_rows;
#[cfg(test)]
mod envelope_values;
#[cfg(test)]
mod envelopes;
pub mod mute_suite;

pub use mute_suite::MuteSuite;
