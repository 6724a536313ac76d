//! CBOR (RFC 8949): the values that messages, vouchers and records are made of, and their bytes.
#![tactic(auto)]

pub mod blob;
mod chunks;
mod copy;
mod counting;
pub mod cursor;
pub mod fault;
pub mod head;
pub mod item;
mod keys;
pub mod laws;
pub mod no_memory;
pub mod numbers;
pub mod part;
mod pass;
pub mod read;
mod read_head;
pub mod shapes;
mod strings;
pub mod text;
pub mod write;

pub use blob::Blob;
pub use copy::copy_pairs;
pub use cursor::Cursor;
pub use fault::CborFault;
pub use item::{Item, Items, Pairs};
pub use no_memory::NoMemory;
pub use numbers::{integer, integer_item};
pub use part::Part;
pub use read::{read_det, read_wire};
pub use shapes::exactly;
pub use text::Text;
pub use write::{write_det, write_head};
