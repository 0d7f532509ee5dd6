//! The top call: words, files and a sink in, a status and a report out. It stands on every other crate, and
//! its contract is the promise of the whole.
#![tactic(auto)]

mod ends;
mod perform;
mod status;

pub use command_input::{FileRole, InputFault};
pub use ends::one_status;
pub use perform::run;
pub use status::Status;
