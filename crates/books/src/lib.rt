// Books: leads and their rows, what a book means, the row book, and whole histories of calls.
#![tactic(auto)]

pub mod book;
pub mod call;
pub mod fault;
pub mod history;
pub mod law;
pub mod lead;
pub mod play;
pub mod proving;
pub mod row_book;
pub mod touch;
