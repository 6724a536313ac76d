//! Texts that show a voucher of FIDO Device Onboard 1.1 and what is wrong with it, and a longer voucher's bytes.
#![tactic(auto)]

pub mod checking;
pub mod extending;
mod received;
pub mod refusals;
pub mod showing;

pub use checking::check;
pub use extending::extend_file;
pub use refusals::refusal;
pub use showing::show;
