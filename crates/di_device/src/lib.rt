//! A device without a credential at its factory (FIDO Device Onboard 1.1, section 5.2): it says what it is, takes its voucher's
//! header, answers the header's HMAC under a new secret, and keeps its credential.
#![tactic(auto)]

pub mod app_start_sent;
pub mod blank;
mod hearing;
pub mod hmac_sent;
mod replying;
mod secret;

pub use app_start_sent::AppStartSent;
pub use blank::Blank;
pub use hmac_sent::HmacSent;
