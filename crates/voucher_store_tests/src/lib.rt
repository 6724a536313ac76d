//! Tests of `voucher_store`: images from outside, and where each is at fault.
#![tactic(auto)]

#[cfg(test)]
mod given;
#[cfg(test)]
mod image_tests;
