//! What a list of steps comes to: the valid extended plan that it spells, with its state and its cost, or the first place at which it
//! spells none, and why. It stands on extended plans; whoever is handed such a list stands on it.
#![tactic(auto)]

mod check;
mod stack;
mod steps_no;

pub use check::{check_steps, check_steps_in};
pub use stack::StepStack;
pub use steps_no::StepsNo;
