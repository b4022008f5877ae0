// A clash key: two form numbers below 16 and a row.
ghost use Rattle.std.specs.Prelude.{◌<◌};

use rows::row::Row;

#[derive(Clone, Copy)]
pub struct ClashKey {
    pub first: u8,
    pub second: u8,
    pub row: Row,
    ghost few: { first < 16 },
    ghost small: { second < 16 },
}
