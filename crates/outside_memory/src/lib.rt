//! A shelf and a sink in memory, for tests and callers that hold the bytes themselves. Their calls can be made
//! to fail, by number, and both tell all that they hold.
#![tactic(auto)]

mod memory_shelf;
mod memory_sink;

pub use memory_shelf::MemoryShelf;
pub use memory_sink::MemorySink;
