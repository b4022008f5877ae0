// The rank table.
pub mod calls;
pub mod cell;
pub mod rank_table;
