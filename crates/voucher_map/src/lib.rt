//! The vouchers of a party: what it keeps of each device, and how a change of one of them is refused or made. How they are
//! kept on a disk is not told here.
#![tactic(auto)]

pub mod entries;
pub mod fault;
pub mod found;
pub mod kept;
pub mod keys;
pub mod laws;
pub mod refusals;
pub mod seen;

pub use fault::StoreFault;
pub use found::{Found, find};
pub use kept::Kept;
pub use seen::Seen;
