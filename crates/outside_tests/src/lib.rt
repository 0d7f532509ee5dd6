//! Tests of the shelves and the sinks, over public calls alone. There is no code here: the crate below keeps no tests,
//! so that it is not proved twice.
#![tactic(auto)]

#[cfg(test)]
mod shelves;
#[cfg(test)]
mod sinks;
