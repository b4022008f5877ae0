// The search tree: a register in nodes that the caller lends, in the order of entering. A link counts only where the node that it leads to is one of the entries and names this one as the node above it, so that a link left behind by a take back counts for nothing.
ghost use Rattle.std.specs.Prelude.{◌≡◌, ℕ, ◌<◌, ◌≤◌, length};
ghost use Rattle.registers.specs.Entries.{NoCodeTwice};
ghost use Rattle.registers.specs.Lent.{most};
ghost use Rattle.registers.specs.Nodes.{tree_entries, node_at, stop};

use crate::tree::node::Node;
use std::marker::PhantomData;

#[derive(Drop)]
pub struct SearchTree<'a, K> {
    pub(crate) nodes: &'a mut [Node],
    // how many of the lent nodes are entries; a register asks for no memory of its own
    pub(crate) count: usize,
    pub(crate) keys: PhantomData<K>,
    ghost room: { count ≤ length nodes.now },
    ghost few: { count ≤ most },
    ghost upward: { (l : ℕ) → l < count → (node_at nodes.now l).above ≤ l },
    ghost found: { (j : ℕ) → j < count → stop nodes.now count (node_at nodes.now j).code count 0 ≡ j },
    ghost apart: { NoCodeTwice (tree_entries nodes.now count) },
}
