//! Tests of `suite_port` and `suite_laws`.
#![tactic(auto)]

#[cfg(test)]
mod lab_tests;
#[cfg(test)]
mod vectors;
