use mq_base::{PlainTable, Query, Seq};
use policy_base::{Policy, Prices};

/// What the accepted files of a command stand for.
#[derive(Drop)]
pub enum Task {
    Run(RunTask),
}

/// The task of `run`: the query is bound to the schema of the policy, and the tables stand in the order of FROM. The number of the
/// schedule is 0 for now (docs/FORMATS.md, "Words").
#[derive(Drop)]
pub struct RunTask {
    pub policy: Policy,
    pub prices: Prices,
    pub query: Query,
    pub tables: Seq<PlainTable>,
    pub seed: [u8; 32],
    pub schedule: u64,
}
