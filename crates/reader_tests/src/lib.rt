//! Tests of the readers of policies, prices, tables and queries, over public calls alone. There is no code here: the crates
//! below keep no tests, so that none of them is proved twice.
#![tactic(auto)]

#[cfg(test)]
mod binding;
#[cfg(test)]
mod policies;
#[cfg(test)]
mod prices;
#[cfg(test)]
mod printing;
#[cfg(test)]
mod readings;
#[cfg(test)]
mod refusals;
#[cfg(test)]
mod refused;
#[cfg(test)]
mod schemas;
#[cfg(test)]
mod tables;
#[cfg(test)]
mod tokens;
