//! Tests of `di_device`, against messages of a factory from outside.
#![tactic(auto)]

#[cfg(test)]
mod given;
#[cfg(test)]
mod refusal_tests;
#[cfg(test)]
mod session_rows;
#[cfg(test)]
mod session_tests;
