// Why a form is refused.
ghost use Rattle.forms.specs.Causes.{cause};
ghost use Rattle.forms.specs.declared.fault.FormFault.TheVariants.{Notation};
ghost use Rattle.std.specs.Prelude.{◌≡◌};

use causes::{Cause, Refusal};
use notation::fault::Fault;
use thiserror::Error;

#[derive(Clone, Copy, Debug, PartialEq, Eq, Error)]
pub enum FormFault {
    #[error("a letter or mark not allowed, used, or of no method")]
    Letter,
    #[error("sixteen forms already")]
    Full,
    #[error(transparent)]
    Notation(Fault),
    #[error("the ending is longer than the lead")]
    Ending,
    // the first place whose row stood already, and the place before it where it stood
    #[error("the lead repeats a row in itself")]
    Repeat(usize, usize),
}

impl Refusal for FormFault {
    ghost caused = { cause };

    fn cause(&self) -> Cause {
        match self {
            FormFault::Letter => Cause::plain(6),
            FormFault::Full => Cause::plain(7),
            FormFault::Notation(fault) => fault.cause(),
            FormFault::Ending => Cause::plain(8),
            FormFault::Repeat(j, i) => Cause::two(9, *j, *i),
        }
    }
}

// By hand, since the `From` that `#[from]` writes does not say which fault a `?` makes.
impl From<Fault> for FormFault {
    ghost from_gives = { λ e r. r ≡ Notation e };

    fn from(fault: Fault) -> FormFault {
        FormFault::Notation(fault)
    }
}
