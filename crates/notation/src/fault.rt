// Why a notation is refused, with the byte at which it is at fault.
ghost use Rattle.notation.specs.Causes.{cause};

use causes::{Cause, Refusal};
use thiserror::Error;

#[derive(Clone, Copy, Debug, PartialEq, Eq, Error)]
pub enum Fault {
    // the first byte with which no notation goes on
    #[error("no notation goes on with this byte")]
    Byte(usize),
    // the text's length, where it ends too early
    #[error("the notation ends too early")]
    Early(usize),
    // the first byte of a change with a place above the stage, or with places not ascending
    #[error("a place above the stage, or places not ascending")]
    Places(usize),
    // the first byte of a change that cannot be rung
    #[error("this change cannot be rung")]
    Unrung(usize),
    // the first byte of the block with which there are more than 64 changes
    #[error("more than 64 changes with this block")]
    Many(usize),
}

impl Refusal for Fault {
    ghost caused = { cause };

    fn cause(&self) -> Cause {
        match self {
            Fault::Byte(at) | Fault::Early(at) => Cause::one(2, *at),
            Fault::Places(at) => Cause::one(3, *at),
            Fault::Unrung(at) => Cause::one(4, *at),
            Fault::Many(at) => Cause::one(5, *at),
        }
    }
}
