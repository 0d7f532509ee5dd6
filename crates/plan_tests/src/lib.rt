//! Tests of the plans of queries, of the facts of their nodes, of their clusters, of their costs and of lists of steps, over public
//! calls alone. There is no code here.
#![tactic(auto)]

#[cfg(test)]
mod costs;
#[cfg(test)]
mod hospital;
#[cfg(test)]
mod pairs;
#[cfg(test)]
mod plans;
#[cfg(test)]
mod schemes;
#[cfg(test)]
mod steps;
#[cfg(test)]
mod told;
