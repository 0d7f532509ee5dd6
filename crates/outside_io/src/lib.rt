//! The outside of the product: a shelf, from which files are read, and a sink, to which a report is written.
//! Each is a trait that tells what it holds, where it can, with an implementation over the system; those in
//! memory are in `outside_memory`. Every crate that reads or writes stands on these.
#![tactic(auto)]

mod dir_shelf;
mod shelf;
mod sink;
mod std_sink;
mod stream;

pub use dir_shelf::DirShelf;
pub use shelf::{Shelf, ShelfNo};
pub use sink::{Sink, SinkNo};
pub use std_sink::StdSink;
