// Calling sources: lists of form numbers, given one by one.
#![tactic(auto)]

pub mod fault;
pub mod join;
pub mod listed;
pub mod parts;
pub mod run;
pub mod source;
