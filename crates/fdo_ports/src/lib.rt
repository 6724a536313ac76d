//! The outside as the program sees it: sources, sinks, random draws and a clock, each with a count of its faults.
#![tactic(auto)]

pub mod channel;
pub mod clock;
pub mod failed;
pub mod host;
pub mod list_clock;
pub mod list_random;
pub mod memory_sink;
pub mod memory_source;
pub mod plain;
pub mod random;
pub mod sink;
pub mod source;

pub use channel::Channel;
pub use clock::Clock;
pub use failed::Failed;
pub use host::{Host, HostName};
pub use list_clock::ListClock;
pub use list_random::ListRandom;
pub use memory_sink::MemorySink;
pub use memory_source::MemorySource;
pub use plain::{PlainSink, PlainSource};
pub use random::Random;
pub use sink::{Sink, write_all};
pub use source::Source;
