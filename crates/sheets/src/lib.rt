// What every program over a sheet shares: reading the sheet, cutting it into lines and words, and printing refusals.
#![tactic(auto)]

pub mod input;
pub mod print;
pub mod words;
