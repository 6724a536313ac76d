//! How often the calls on an object failed, and objects in memory of which listed calls are to fail.
#![tactic(auto)]

pub mod calls;

pub use calls::Calls;
