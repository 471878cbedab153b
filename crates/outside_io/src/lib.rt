//! The outside: shelves that files are fetched from, and sinks that text is put to.
#![tactic(auto)]

mod host_shelf;
mod host_sink;
mod listed;
mod memory_shelf;
mod memory_sink;
mod putting;
mod reading;
mod shelf;
mod sink;

pub use host_shelf::HostShelf;
pub use host_sink::HostSink;
pub use memory_shelf::MemoryShelf;
pub use memory_sink::MemorySink;
pub use putting::{WriteStop, put_all};
pub use shelf::{Fetched, Shelf, ShelfFault};
pub use sink::{Sink, SinkFailed};
