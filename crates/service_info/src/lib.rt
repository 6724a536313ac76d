//! ServiceInfo of FIDO Device Onboard 1.1 (section 3.8): the pairs that a device and its owner hand to each other's
//! modules, cut into messages, checked as they come, and the module devmod.
#![tactic(auto)]

pub mod devmod;
pub mod devmod_key;
pub mod info_fault;
pub mod info_pairs;
pub mod key;
pub mod laws;
pub mod list_module;
pub mod module;
mod module_names;
pub mod named;
pub mod packer;
pub mod pair;
mod shipped_devmod;
pub mod size;
pub mod texts;
pub mod unpacker;
pub mod value;

pub use devmod::Devmod;
pub use devmod_key::DevmodKey;
pub use info_fault::InfoFault;
pub use info_pairs::InfoPairs;
pub use key::{is_key, is_name};
pub use list_module::ListModule;
pub use module::Module;
pub use named::Named;
pub use packer::Packer;
pub use pair::Pair;
pub use shipped_devmod::devmod_pairs;
pub use size::{LEAST_SIZE, MOST_SIZE, USUAL_SIZE, size_of};
pub use texts::Texts;
pub use unpacker::Unpacker;
pub use value::read_item;
