//! Tests of the crates below: cases from the standard that no contract states, and that calls succeed with ample
//! memory.
#![tactic(auto)]

#[cfg(test)]
mod message_tests;
#[cfg(test)]
mod rv_rows;
#[cfg(test)]
mod rv_tests;
#[cfg(test)]
mod step_tests;
#[cfg(test)]
mod voucher_rows;
#[cfg(test)]
mod voucher_tests;
