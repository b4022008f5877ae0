// Changes, and the reader of place notation.
#![tactic(auto)]

pub mod apply;
pub mod change;
pub mod changes;
mod draft;
pub mod fault;
pub mod reader;
pub mod token;
mod written;
