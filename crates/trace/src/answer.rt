// What a register answers, as it is printed.
ghost use Rattle.std.specs.Fmt.{◌++?◌};
ghost use Rattle.std.specs.Prelude.{Some, codes, decimal, ◌++◌};
ghost use Rattle.trace.specs.Answers.{entered_shown, found_shown, taken_shown};

use causes::Refusal;
use registers::entered::Entered;
use registers::fault::RegisterFault;
use std::fmt;
use std::fmt::Display;

#[derive(Drop)]
pub struct Answer<A>(pub A);

// What entering a key answers.
impl Display for Answer<Result<Entered, RegisterFault>> {
    ghost output = { λ a. Some (entered_shown a.0) };

    fn fmt<W: fmt::Write>(&self, f: &mut fmt::Formatter<W>) -> fmt::Result {
        match self.0 {
            Ok(Entered::Added) => f.write_str("added"),
            Ok(Entered::Held(mark)) => write!(f, "held {mark}"),
            Err(fault) => write!(f, "{}", fault.cause()),
        }
    }
}

// What finding a key answers.
impl Display for Answer<Option<u32>> {
    ghost output = { λ a. Some (found_shown a.0) };

    fn fmt<W: fmt::Write>(&self, f: &mut fmt::Formatter<W>) -> fmt::Result {
        match self.0 {
            Some(mark) => write!(f, "{mark}"),
            None => f.write_str("absent"),
        }
    }
}

// What taking back answers.
impl Display for Answer<Result<u32, RegisterFault>> {
    ghost output = { λ a. Some (taken_shown a.0) };

    fn fmt<W: fmt::Write>(&self, f: &mut fmt::Formatter<W>) -> fmt::Result {
        match self.0 {
            Ok(mark) => write!(f, "{mark}"),
            Err(fault) => write!(f, "{}", fault.cause()),
        }
    }
}

// How much a register can hold.
#[derive(Clone, Copy)]
pub struct Room {
    pub reach: u64,
    pub capacity: usize,
}

impl Display for Room {
    ghost output = { λ r. Some (codes "reach " ++ (decimal r.reach ++ (codes " capacity " ++ decimal r.capacity))) };

    fn fmt<W: fmt::Write>(&self, f: &mut fmt::Formatter<W>) -> fmt::Result {
        let Room { reach, capacity } = self;
        write!(f, "reach {reach} capacity {capacity}")
    }
}

// What both registers say, side by side.
#[derive(Drop)]
pub struct Both<A> {
    pub tree: A,
    pub rank: A,
}

impl<A: Display> Display for Both<A> {
    ghost output = { λ b. Some (codes "tree ") ++? A.output b.tree ++? Some (codes ", rank ") ++? A.output b.rank };

    fn fmt<W: fmt::Write>(&self, f: &mut fmt::Formatter<W>) -> fmt::Result {
        let Both { tree, rank } = self;
        write!(f, "tree {tree}, rank {rank}")
    }
}
