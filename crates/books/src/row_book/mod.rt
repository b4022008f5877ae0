// The row book: every row of its leads stands in a register.
pub mod calls;
mod entering;
pub mod open;
pub mod state;
