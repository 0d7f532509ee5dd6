//! Tests of the plain types, of what words and numbers spell, and of the seals, over public calls alone.
//! There is no code here: the crates below keep no tests, so that none of them is proved twice.
#![tactic(auto)]

#[cfg(test)]
mod columns;
#[cfg(test)]
mod feistel_seals;
#[cfg(test)]
mod keys;
#[cfg(test)]
mod order_seals;
#[cfg(test)]
mod stream_seals;
#[cfg(test)]
mod values;
#[cfg(test)]
mod words;
