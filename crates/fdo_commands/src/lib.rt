//! The commands of the program over the objects of the environment: the top call `fdo`.
#![tactic(auto)]

mod answers;
pub mod command;
mod extending;
mod fault_line;
mod input;
mod key_words;
pub mod laws;
mod line;
mod lines;
pub mod status;
mod step;
mod texts;
pub mod top;
mod vouchers;

pub use command::Command;
pub use status::Status;
pub use top::fdo;
