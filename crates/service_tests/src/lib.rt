//! Tests of `service_info` and `download_module`. The inputs and answers are written by hand from the formats.
#![tactic(auto)]

#[cfg(test)]
mod download_tests;
#[cfg(test)]
mod info_tests;
#[cfg(test)]
mod tools;
