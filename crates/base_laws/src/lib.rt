//! General words and their laws, which every other crate's contracts may cite: the first fault in a
//! stated order, sets as numbers, lists in order, folds from the left. There is no code here.
#![tactic(auto)]
