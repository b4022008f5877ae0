// The calls of a clash key, and that it is a key: codes differ where one of the numbers or the row does.
ghost use Rattle.std.specs.Prelude.{◌≡◌, ℕ, ◌*◌, ◌<◌, ◌≤◌, MatchOption};
ghost use Rattle.registers.specs.Keys.{clash_code, OutOfSixteen};
ghost use Rattle.registers.specs.KeysLemmas.{clash_apart};
ghost use Rattle.rows.specs.Code.{fact};
ghost use Rattle.rows.specs.Rows.{On};

use crate::clash::ClashKey;
use crate::key::Key;
use rows::row::Row;

impl ClashKey {
    // Nothing where one of the numbers is not below 16.
    pub fn new(first: u8, second: u8, row: Row) -> Option<ClashKey>
        ensures { MatchOption result (OutOfSixteen first second) (λ key. (key.first ≡ first) × (key.second ≡ second) × (key.row ≡ row)) }
    {
        if first < 16 && second < 16 {
            Some(ClashKey { first, second, row })
        } else {
            None
        }
    }

    // The row's code × 256 + 16 × the first form number + the second.
    pub fn code(&self) -> u64
        ensures value { result ≡ clash_code self.now }
        ensures below { (n : ℕ) → n ≤ 12 → On n self.now.row.bells → result < 256 * fact n }
    {
        u64::from(self.row.code()) * 256 + 16 * u64::from(self.first) + u64::from(self.second)
    }
}

impl Key for ClashKey {
    ghost code = { clash_code };

    ghost apart = { clash_apart };

    fn code(&self) -> u64 {
        ClashKey::code(self)
    }
}
