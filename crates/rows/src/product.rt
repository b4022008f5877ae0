// Rounds, the product and the inverse of rows.
ghost use Rattle.std.specs.Prelude.{◌≡◌, ℕ, ◌≤◌, List};
ghost use Rattle.rows.specs.Rows.{rounds, bell_in, times, inverse, RowOf, On};

use crate::row::Row;

impl Row {
    // Every bell in its own place, and so a row on every stage; the unit of the product.
    pub fn rounds() -> Row
        ensures value { result.bells ≡ rounds 12 }
        ensures stage { (n : ℕ) → On n result.bells }
        ensures unit { (a : List ℕ) → RowOf 12 a → (times result.bells a ≡ a) × (times a result.bells ≡ a) }
    {
        Row {
            bells: [1, 2, 3, 4, 5, 6, 7, 8, 9, 10, 11, 12],
        }
    }

    // The product: in place p the bell that this row has in place other(p).
    pub fn times(&self, other: &Row) -> Row
        ensures value { result.bells ≡ times self.now.bells other.now.bells }
        ensures stage { (n : ℕ) → On n self.now.bells → On n other.now.bells → On n result.bells }
        ensures associative { (c : List ℕ) → RowOf 12 c → times result.bells c ≡ times self.now.bells (times other.now.bells c) }
    {
        let bells = other.bells.map(|bell| self.bells[bell as usize - 1]);
        Row { bells }
    }

    // The inverse: bell p in place self(p).
    pub fn inverse(&self) -> Row
        ensures value { result.bells ≡ inverse 12 self.now.bells }
        ensures stage { (n : ℕ) → On n self.now.bells → On n result.bells }
        ensures undone { (times result.bells self.now.bells ≡ rounds 12) × (times self.now.bells result.bells ≡ rounds 12) }
        ensures placed { (p : ℕ) → 1 ≤ p → p ≤ 12 → bell_in result.bells (bell_in self.now.bells p) ≡ p }
    {
        let mut bells = [0u8; 12];
        // a bell says which place is written, and no adapter writes out of order
        for (p, bell) in self.bells.iter().enumerate() {
            bells[*bell as usize - 1] = p as u8 + 1;
        }
        Row { bells }
    }
}
