// Why a source is not made.
ghost use Rattle.sources.specs.Causes.{cause};

use causes::{Cause, Refusal};
use thiserror::Error;

#[derive(Clone, Copy, Debug, PartialEq, Eq, Error)]
pub enum SourceFault {
    // a run of more than 1,280, or parts that are not 1 to 99
    #[error("the number of times is out of its limits")]
    Times,
}

impl Refusal for SourceFault {
    ghost caused = { cause };

    fn cause(&self) -> Cause {
        match self {
            SourceFault::Times => Cause::plain(23),
        }
    }
}
