//! The table of sessions of a server (FIDO Device Onboard 1.1, section 4.3): one session for each token.
#![tactic(auto)]

pub mod sessions;

pub use sessions::{MOST_SESSIONS, Sessions};
