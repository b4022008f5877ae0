// Rows on 4 to 12 bells: their product and inverse, their codes, and how they are written.
#![tactic(auto)]

pub mod card;
pub mod code;
pub mod fault;
pub mod product;
pub mod row;
pub mod stage;
pub mod text;
