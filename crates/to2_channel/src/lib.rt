//! The sealed messages of a TO2 session of FIDO Device Onboard 1.1 (section 5.5.1): what one end opens and seals, with the
//! initialization vectors that it took and used.
#![tactic(auto)]

pub mod bounds;
pub mod channel;
mod enveloping;
pub mod laws;
pub mod side;

pub use bounds::{fits_peer, fits_plain};
pub use channel::Channel;
pub use laws::vectors_differ;
pub use side::Side;
