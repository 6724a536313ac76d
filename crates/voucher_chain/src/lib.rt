//! Ownership vouchers of FIDO Device Onboard 1.1 (section 3.4): read, checked, extended, and matched with the credentials
//! of devices.
#![tactic(auto)]

pub mod chain;
pub mod credential;
mod deep;
pub mod entry;
pub mod extending;
pub mod fault;
pub mod header;
pub mod rv_info;
pub mod strengths;
pub mod voucher;

pub use chain::{check_chain, check_entry, owner_key};
pub use credential::{Credential, matches};
pub use entry::{Entry, find_entry_fault, read_entry, read_entry_part};
pub use extending::extend;
pub use fault::ChainFault;
pub use header::{Guid, Header, header_item, read_header, replacement};
pub use rv_info::{RvDirective, RvInfo, RvInstr, find_rv_fault, read_rv, rv_item};
pub use strengths::{hash_kind_of, strength};
pub use voucher::{Entries, MOST_ENTRIES, Voucher, read_voucher, write_voucher};
