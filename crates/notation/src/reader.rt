// The reader of place notation.
ghost use Rattle.notation.specs.Meaning.{Means, Only};

use crate::changes::Changes;
use crate::draft::Draft;
use crate::fault::Fault;
use crate::token::Tokens;
use rows::stage::Stage;

// The changes that a notation means on the stage, or the first fault from the left.
pub fn read(stage: Stage, text: &[u8]) -> Result<Changes, Fault>
    ensures means { Means stage.bells text.now result }
    ensures only { Only stage.bells text.now result }
{
    let mut draft = Draft::new(stage);
    for token in Tokens::of(text) {
        draft.take(token)?;
    }
    draft.finish(text.len())
}

#[cfg(test)]
mod tests {
    use super::*;
    use std::test::Fail;

    #[test]
    fn plain_bob(rt: HostRuntime) -> Result<(), Fail> {
        let four = Stage::new(4)?;
        assert_eq!(rt; read(four, b"&-14-14,12")?.count, 8);
        assert_eq!(rt; read(four, b"&-14-1z").err(), Some(Fault::Byte(6)));
        let five = Stage::new(5)?;
        assert_eq!(rt; read(five, b"-").err(), Some(Fault::Unrung(0)));
        Ok(())
    }
}
