//! The words and the files of a command, up to a sound task: the words have the form of a command, and each file that it names is read
//! and judged before the next. It stands on the readers of the files and on the outside; the top call stands on it.
#![tactic(auto)]

mod fault;
mod files;
mod load_no;
mod query;
mod task;
mod words;

pub use fault::{FileRole, InputFault};
pub use files::load;
pub use load_no::LoadNo;
pub use task::{RunTask, Task};
pub use words::{Command, RunWords, parse};
