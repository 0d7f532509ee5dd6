//! Reads a policy file: its subjects, tables and rules as sets of attributes, or the first refusal in the
//! order that docs/FORMATS.md, "Policy file", states. It stands on the plain types of `mq_base`.
#![tactic(auto)]

mod build;
mod check;
mod fault;
mod grants;
mod names;
mod raw;
mod read;
mod refusal;
mod rules;
mod shape;

pub use read::read_policy;
pub use refusal::{PolicyCode, PolicyNo};
