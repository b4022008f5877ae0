// Reading the mark of a call.
ghost use Rattle.forms.specs.Adding.{CallMark};

use crate::fault::FormFault;
use crate::form::Mark;

impl TryFrom<u8> for Mark {
    type Error = FormFault;

    ghost try_from_gives = { CallMark };

    fn try_from(byte: u8) -> Result<Mark, FormFault> {
        match byte {
            b'-' => Ok(Mark::Bob),
            b's' => Ok(Mark::Single),
            _ => Err(FormFault::Letter),
        }
    }
}
