//! Code over any suite that meets the traits of `suite_port`, proved from their laws alone, and two suites: one that meets
//! them otherwise than the laboratory suite, and one that tells what another was asked.
#![tactic(auto)]

pub mod asking;
pub mod laws;
pub mod plain_suite;
pub mod telling_suite;

pub use plain_suite::PlainSuite;
pub use telling_suite::{Call, Telling};
