// The memory that the registers are lent.
ghost use Rattle.std.specs.Prelude.{◌≡◌, OnOk, vec_len};

use crate::chance::Chance;
use registers::rank::cell::Cell;
use registers::tree::node::Node;
use std::alloc::{AllocError, Global};

#[derive(Drop)]
pub struct Memory {
    heap: Global,
    chance: Chance,
    pub nodes: Vec<Node>,
    pub cells: Vec<Cell>,
}

// Fills a list anew with as many things of one make.
fn refill<T: Drop, F: FnMut() -> T>(
    list: &mut Vec<T>,
    count: u32,
    mut make: F,
) -> Result<(), AllocError>
    requires { F.IsAlwaysCallable make }
    ensures { OnOk result (vec_len list.new ≡ count) }
{
    list.clear();
    for _ in 0..count {
        list.push(make())?;
    }
    Ok(())
}

impl Memory {
    // Nothing is lent yet.
    pub fn new(heap: Global) -> Memory
        ensures nodes { vec_len result.nodes ≡ 0 }
        ensures cells { vec_len result.cells ≡ 0 }
    {
        Memory {
            heap,
            chance: Chance::new(),
            nodes: Vec::new(heap),
            cells: Vec::new(heap),
        }
    }

    // New memory, full of garbage. What was lent before goes back first, so that the two are never held together.
    pub fn lend(&mut self, nodes: u32, cells: u32) -> Result<(), AllocError>
        ensures nodes { OnOk result (vec_len self.new.nodes ≡ nodes) }
        ensures cells { OnOk result (vec_len self.new.cells ≡ cells) }
    {
        self.nodes = Vec::new(self.heap);
        self.cells = Vec::new(self.heap);
        let chance = &mut self.chance;
        refill(&mut self.nodes, nodes, || chance.node(nodes))?;
        refill(&mut self.cells, cells, || chance.cell(cells))
    }
}
