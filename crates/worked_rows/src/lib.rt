//! The worked rows as tests of the top call, over shelves and sinks in memory. There is no code here; the tests of
//! what each reader answers stand in `reader_tests`.
#![tactic(auto)]

#[cfg(test)]
mod answers;
#[cfg(test)]
mod planned;
#[cfg(test)]
mod tests;
