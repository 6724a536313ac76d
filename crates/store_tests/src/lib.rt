//! Tests of `disk_port`, `credential_store` and `file_disk`: images from outside, and stops and failures at every call.
#![tactic(auto)]

#[cfg(test)]
mod call_tests;
#[cfg(test)]
mod file_tests;
#[cfg(test)]
mod given;
#[cfg(test)]
mod image_tests;
#[cfg(test)]
mod listed;
#[cfg(test)]
mod size_tests;
#[cfg(test)]
mod stop_tests;
