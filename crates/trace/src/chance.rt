// Garbage for lent memory. A register must not care what it finds there, so nothing is promised of it; it is the same in every run.
ghost use Rattle.std.specs.Prelude.{◌<◌};

use registers::rank::cell::{Cell, Link};
use registers::tree::node::Node;

#[derive(Clone, Copy)]
pub struct Chance {
    state: u64,
}

impl Chance {
    pub fn new() -> Chance {
        Chance { state: 1 }
    }

    // The upper half of the state, which varies most.
    fn number(&mut self) -> u32 {
        self.state = self
            .state
            .wrapping_mul(6_364_136_223_846_793_005)
            .wrapping_add(1_442_695_040_888_963_407);
        (self.state >> 32) as u32
    }

    fn one_of(&mut self, choices: u32) -> u32
        requires { 0 < choices }
        ensures { result < choices }
    {
        self.number() % choices
    }

    // Half of the indices lead into the lent memory.
    fn index(&mut self, lent: u32) -> u32 {
        if lent > 0 && self.one_of(2) == 0 {
            self.one_of(lent)
        } else {
            self.number()
        }
    }

    fn link(&mut self, lent: u32) -> Option<u32> {
        if self.one_of(4) == 0 {
            None
        } else {
            Some(self.index(lent))
        }
    }

    // Half of the codes are small, so that a script may well enter them.
    fn code(&mut self) -> u64 {
        if self.one_of(2) == 0 {
            u64::from(self.one_of(64))
        } else {
            u64::from(self.number()) * 28
        }
    }

    pub fn node(&mut self, lent: u32) -> Node {
        Node {
            code: self.code(),
            mark: self.number(),
            above: self.index(lent),
            low: self.link(lent),
            high: self.link(lent),
        }
    }

    pub fn cell(&mut self, lent: u32) -> Cell {
        let mark = self.number();
        let link = match self.one_of(4) {
            0 => Link::Free,
            1 => Link::First,
            _ => Link::After(self.index(lent)),
        };
        Cell { mark, link }
    }
}
