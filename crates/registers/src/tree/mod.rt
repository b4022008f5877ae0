// The search tree.
pub mod calls;
pub mod node;
mod search;
pub mod search_tree;
