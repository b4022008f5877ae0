// Ringing a change.
ghost use Rattle.std.specs.Prelude.{◌≡◌, ℕ};
ghost use Rattle.notation.specs.Changes.{ChangeOn, rung};
ghost use Rattle.rows.specs.Rows.{rounds, times, On};

use crate::change::Change;
use rows::row::Row;

impl Change {
    // The row after this one: bells in places made stay, and neighbours outside them cross.
    pub fn apply(&self, row: &Row) -> Row
        ensures value { result.bells ≡ rung self.now.made row.now.bells }
        ensures product { result.bells ≡ times row.now.bells (rung self.now.made (rounds 12)) }
        ensures stage { (n : ℕ) → ChangeOn n self.now.made → On n row.now.bells → On n result.bells }
    {
        let mut bells = row.bells;
        let mut p = 0;
        // a step is one place or two, so this is no `for`
        while p < 12 {
            if self.made[p] {
                p += 1;
            } else {
                bells.swap(p, p + 1);
                p += 2;
            }
        }
        Row { bells }
    }
}
