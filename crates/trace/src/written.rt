// How the keys of a register are written in a script.
ghost use Rattle.sheets.specs.Words.{digits};
ghost use Rattle.trace.specs.Keys.{RowText, RowRefused, FormNumber, ClashWords, ClashRead, ClashRefused};
ghost use Rattle.trace.specs.declared.written.NoKey.{NoKey};
ghost use Rattle.trace.specs.declared.written.NoKey.TheVariants.{Row as OfRow};
ghost use Rattle.std.specs.Prelude.{◌≡◌, ℕ, false, List, Result, MatchOption, MatchResult};

use registers::clash::ClashKey;
use registers::key::Key;
use rows::fault::RowFault;
use rows::row::Row;
use rows::stage::Stage;
use sheets::print::Refused;
use sheets::words::{cut, number};
use thiserror::Error;

// Why a text is no key.
#[derive(Clone, Copy, Debug, Error)]
pub enum NoKey {
    #[error("{}", Refused(.0))]
    Row(RowFault),
    #[error("no clash key")]
    Clash,
}

impl From<RowFault> for NoKey {
    ghost from_gives = { λ fault no. no ≡ OfRow fault };

    fn from(fault: RowFault) -> NoKey {
        NoKey::Row(fault)
    }
}

pub trait Written: Key {
    // what a text is read as
    ghost reads: { List ℕ → Result Self NoKey → Type 0 };

    fn read(text: &[u8]) -> Result<Self, NoKey>
        ensures { reads text.now result };
}

// The row that a text spells on the stage of its length.
impl Written for Row {
    ghost reads = { λ text read. MatchResult read (λ row. RowText text row.bells) (RowRefused text) };

    fn read(text: &[u8]) -> Result<Row, NoKey> {
        let stage = Stage::new(text.len())?;
        Ok(Row::read(stage, text)?)
    }
}

// A form number; one that is too large for the type counts as the largest, which is none of a clash key either.
fn form_number(text: &[u8]) -> Option<u8>
    ensures { MatchOption result (digits text.now ≡ false) (FormNumber text.now) }
{
    let number = number(text)?;
    Some(u8::try_from(number).unwrap_or(u8::MAX))
}

// The two form numbers and the row text.
fn clash_words<'a>(text: &'a [u8]) -> Option<(u8, u8, &'a [u8])>
    ensures { ClashWords text.now result }
{
    let (first, rest) = cut(text, b' ')?;
    let (second, row) = cut(rest, b' ')?;
    let p = form_number(first)?;
    let q = form_number(second)?;
    Some((p, q, row))
}

// Two form numbers and a row.
impl Written for ClashKey {
    ghost reads = { λ text read. MatchResult read (λ key. ClashRead text key.first key.second key.row.bells) (ClashRefused text) };

    fn read(text: &[u8]) -> Result<ClashKey, NoKey> {
        let (p, q, spelled) = clash_words(text).ok_or(NoKey::Clash)?;
        let row = <Row as Written>::read(spelled)?;
        ClashKey::new(p, q, row).ok_or(NoKey::Clash)
    }
}
