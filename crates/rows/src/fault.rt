// Why a stage or a row is refused.
ghost use Rattle.rows.specs.Causes.{cause};

use causes::{Cause, Refusal};
use thiserror::Error;

#[derive(Clone, Copy, Debug, PartialEq, Eq, Error)]
pub enum RowFault {
    // the number of bells is not 4 to 12
    #[error("the stage is not 4 to 12")]
    Stage,
    // a text that is not the bells of the stage once each, or a number that is no code of a row on it
    #[error("not the bells once each, or no code of a row")]
    Row,
}

impl Refusal for RowFault {
    ghost caused = { cause };

    fn cause(&self) -> Cause {
        match self {
            RowFault::Stage => Cause::plain(1),
            RowFault::Row => Cause::plain(28),
        }
    }
}
