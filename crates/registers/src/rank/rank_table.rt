// The rank table: a register in cells that the caller lends, one for each code below its reach. The last entry stands in the table itself; the cell of its code is filled when the next one comes.
ghost use Rattle.std.specs.Prelude.{◌≡◌, ℕ, ◌<◌, true, length};
ghost use Rattle.registers.specs.Cells.{settled, end, number, rank_entries, cell_at, is_taken, chained, among};
ghost use Rattle.registers.specs.Entries.{NoCodeTwice};
ghost use Rattle.registers.specs.Lent.{used};

use crate::rank::cell::{Cell, Last};
use std::marker::PhantomData;

#[derive(Drop)]
pub struct RankTable<'a, K> {
    pub(crate) cells: &'a mut [Cell],
    pub(crate) last: Option<Last>,
    pub(crate) keys: PhantomData<K>,
    ghost linked: { chained (settled cells.now last) (used (length cells.now)) (number last) (end last) ≡ true },
    ghost apart: { NoCodeTwice (rank_entries cells.now last) },
    ghost kept: { (k : ℕ) → k < used (length cells.now) → is_taken (cell_at (settled cells.now last) k).link ≡ true → among k (rank_entries cells.now last) ≡ true },
}
