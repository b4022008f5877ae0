// What a register can hold: keys whose codes differ where the keys differ.
ghost use Rattle.std.specs.Prelude.{◌≡◌, ℕ};
ghost use Rattle.rows.specs.Code.{code as row_code};
ghost use Rattle.registers.specs.KeysLemmas.{row_apart};

use rows::row::Row;

pub trait Key {
    ghost code: { Self → ℕ };

    fn code(&self) -> u64
        ensures { result ≡ code self.now };

    ghost apart: { (x y : Self) → code x ≡ code y → x ≡ y };
}

impl Key for Row {
    ghost code = { λ row. row_code row.bells };

    ghost apart = { row_apart };

    fn code(&self) -> u64 {
        u64::from(Row::code(self))
    }
}
