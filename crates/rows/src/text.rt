// How rows are written: one bell character for each bell.
ghost use Rattle.std.specs.Prelude.{◌≡◌, ℕ, ◌<◌, List, map, MatchOption, MatchResult, Some, ◌≢◌};
ghost use Rattle.rows.specs.Rows.{count, is_row, RowOf, On};
ghost use Rattle.rows.specs.Text.{named, character, spelled};
ghost use Rattle.rows.specs.declared.fault.RowFault.TheVariants.{Row as NoRow};

use crate::fault::RowFault;
use crate::row::Row;
use crate::stage::Stage;
use std::{fmt, str};

// The bell, or the place, that a byte names.
pub fn bell_named(byte: u8) -> Option<u8>
    ensures { MatchOption result (named byte ≡ 0) (λ bell. (0 < bell) × (named byte ≡ bell)) }
{
    match byte {
        b'1'..=b'9' => Some(byte - b'0'),
        b'0' => Some(10),
        b'E' => Some(11),
        b'T' => Some(12),
        _ => None,
    }
}

// The character of a bell of a row.
fn bell_character(bell: u8) -> u8
    ensures { result ≡ character bell }
{
    match bell {
        0..=9 => bell + b'0',
        10 => b'0',
        11 => b'E',
        _ => b'T',
    }
}

// How often a bell stands there.
fn times_held(bells: &[u8; 12], bell: u8) -> u8
    ensures { result ≡ count bell bells.now }
{
    bells.iter().map(|other| u8::from(*other == bell)).sum()
}

// Whether the bells 1 to 12 stand there once each.
fn once_each(bells: &[u8; 12]) -> bool
    ensures { result ≡ is_row 12 bells.now }
{
    (1..13).all(|bell| times_held(bells, bell) == 1)
}

impl Row {
    // The row on the stage that this text spells, with exactly one character for each of its bells.
    pub fn read(stage: Stage, text: &[u8]) -> Result<Row, RowFault>
        ensures { MatchResult result (λ row. On stage.bells row.bells × (spelled stage.bells row.bells ≡ text.now)) (λ e. (e ≡ NoRow) × ((a : List ℕ) → RowOf 12 a → On stage.bells a → spelled stage.bells a ≢ text.now)) }
    {
        if text.len() != stage.bells as usize {
            return Err(RowFault::Row);
        }
        let mut bells = Row::rounds().bells;
        // behind a zip with `iter_mut` nothing is known of what was written, so it goes by place
        for (p, byte) in text.iter().enumerate() {
            bells[p] = bell_named(*byte).ok_or(RowFault::Row)?;
        }
        if !once_each(&bells) {
            return Err(RowFault::Row);
        }
        Ok(Row { bells })
    }

    // The row as it is written on the stage, for printing.
    pub fn on(&self, stage: Stage) -> Spelled
        ensures row { result.row ≡ self.now }
        ensures stage { result.stage ≡ stage }
    {
        Spelled { row: *self, stage }
    }

    // The characters of the twelve bells; on a stage of n bells the row is written with the first n.
    pub fn characters(&self) -> [u8; 12]
        ensures { result ≡ map character self.now.bells }
    {
        self.bells.map(bell_character)
    }
}

// A row with the stage that it is written on: one character for each bell of the stage.
#[derive(Clone, Copy)]
pub struct Spelled {
    pub row: Row,
    pub stage: Stage,
}

impl fmt::Display for Spelled {
    ghost output = { λ s. Some (spelled s.stage.bells s.row.bells) };

    fn fmt<W: fmt::Write>(&self, f: &mut fmt::Formatter<W>) -> fmt::Result {
        let characters = self.row.characters();
        // all at once, since a write a bell takes longer; each is one byte of ASCII
        let text = str::from_utf8(&characters[..self.stage.bells as usize]).unwrap();
        f.write_str(text)
    }
}

#[cfg(test)]
mod tests {
    use super::*;
    use crate::card::inverse_code;
    use causes::Refusal;
    use std::test::Fail;

    #[test]
    fn six_bells(rt: HostRuntime) -> Result<(), Fail> {
        let six = Stage::new(6)?;
        let row = Row::read(six, b"135264")?;
        assert_eq!(rt; row.code(), 252);
        assert_eq!(rt; inverse_code(252)?, 170);
        assert_eq!(rt; Row::read(six, b"142635")?.code(), 170);
        let long = Row::read(six, b"1352645").err().ok_or("seven characters")?;
        assert_eq!(rt; long.cause().number, 28);
        let twice = Row::read(six, b"135244").err().ok_or("the 4 twice")?;
        assert_eq!(rt; twice.cause().number, 28);
        Ok(())
    }

    #[test]
    fn written_on_a_stage(rt: HostRuntime) -> Result<(), Fail> {
        let twelve = Stage::new(12)?;
        let row = Row::read(twelve, b"2143658709TE")?;
        let whole = format!(in rt.alloc(); "{}", row.on(twelve))?;
        assert_eq!(rt; whole.as_str(), "2143658709TE");
        let six = format!(in rt.alloc(); "{}", row.on(Stage::new(6)?))?;
        assert_eq!(rt; six.as_str(), "214365");
        Ok(())
    }
}
