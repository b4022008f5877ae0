// Registers of keys: what a register means, and two that keep it.
#![tactic(auto)]

pub mod clash;
mod clash_key;
pub mod entered;
pub mod fault;
pub mod key;
pub mod lent;
pub mod rank;
pub mod register;
pub mod tree;
pub mod trial;
