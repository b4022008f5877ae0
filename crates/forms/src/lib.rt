// Lead forms: methods with their bobs and singles, and the lists in which they stand.
#![tactic(auto)]

pub mod add;
pub mod begin;
mod ending;
pub mod fault;
pub mod form;
mod lead;
pub mod list;
mod mark;
pub mod row;
pub mod worked;
