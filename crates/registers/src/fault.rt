// Why a register turns a call down.
ghost use Rattle.registers.specs.Causes.{cause};

use causes::{Cause, Refusal};
use thiserror::Error;

#[derive(Clone, Copy, Debug, PartialEq, Eq, Error)]
pub enum RegisterFault {
    // the code is not below the reach
    #[error("the code is not below the reach")]
    Reach,
    // the code is not held, and there is no room for one more
    #[error("the register is full")]
    Full,
    // nothing is left to take back
    #[error("the register is empty")]
    Empty,
}

impl Refusal for RegisterFault {
    ghost caused = { cause };

    fn cause(&self) -> Cause {
        match self {
            RegisterFault::Reach => Cause::plain(10),
            RegisterFault::Full => Cause::plain(11),
            RegisterFault::Empty => Cause::plain(12),
        }
    }
}
