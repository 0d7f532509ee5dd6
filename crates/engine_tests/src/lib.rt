//! Tests of the engine: what single steps make of tables, over public calls alone. There is no code here.
#![tactic(auto)]

#[cfg(test)]
mod given;
#[cfg(test)]
mod groups;
#[cfg(test)]
mod joins;
#[cfg(test)]
mod premises;
#[cfg(test)]
mod products;
#[cfg(test)]
mod run;
#[cfg(test)]
mod steps;
#[cfg(test)]
mod told;
#[cfg(test)]
mod typed;
