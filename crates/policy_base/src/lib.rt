//! What an accepted policy and its prices say, as the planner takes them: who may see which columns plain and who only sealed,
//! what each subject asks, and the names of ids. It knows nothing of files: `policy_reader` and `price_reader` make these of them.
#![tactic(auto)]

mod names;
mod policy;
mod prices;

pub use policy::Policy;
pub use prices::Prices;
