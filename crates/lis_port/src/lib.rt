//! Where bytes come from and where they go: sources and sinks that a contract can speak of,
//! over readers and writers and over memory.
#![tactic(auto)]

mod buffered;
mod discard;
mod in_memory;
mod once;
mod port;
mod read_ahead;
mod reading;
mod testing;
mod writing;

pub use buffered::Buffered;
pub use discard::Discard;
pub use in_memory::InMemory;
pub use once::Once;
pub use port::{Failed, Sink, Source, read_sent, write_all};
pub use read_ahead::ReadAhead;
pub use reading::Reading;
pub use testing::{Cut, Faltering, Slow, Then};
pub use writing::Writing;
