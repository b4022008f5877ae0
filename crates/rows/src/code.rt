// The code of a row and the row of a code.
ghost use Rattle.std.specs.Prelude.{◌≡◌, ℕ, ◌<◌, ◌≤◌, length, MatchResult, slice_index};
ghost use Rattle.rows.specs.Code.{fact, above, code, inserted, HasCode};
ghost use Rattle.rows.specs.Rows.{On};
ghost use Rattle.rows.specs.declared.fault.RowFault.TheVariants.{Row as NoRow};

use crate::fault::RowFault;
use crate::row::Row;
use crate::stage::Stage;

// How many of these bells are greater.
fn count_greater(bells: &[u8], bell: u8) -> u32
    requires { length bells.now ≤ 12 }
    ensures { result ≡ above bell bells.now }
{
    bells.iter().map(|other| u32::from(*other > bell)).sum()
}

// Puts a bell at index `at`; the bells before it that are not smaller move up by one.
fn insert(bells: &mut [u8; 12], at: usize, bell: u8)
    requires at_bound { at < 12 }
    requires by_index { (i : ℕ) → i < at → slice_index bells.old i ≤ 12 }
    ensures { bells.new ≡ inserted at bell bells.old }
{
    for other in &mut bells[..at] {
        if *other >= bell {
            *other += 1;
        }
    }
    bells[at] = bell;
}

impl Row {
    // The sum of d(p) × (p − 1)! over the places p.
    pub fn code(&self) -> u32
        ensures value { result ≡ code self.now.bells }
        ensures below { (n : ℕ) → n ≤ 12 → On n self.now.bells → result < fact n }
        ensures back { (n : ℕ) → On n self.now.bells → HasCode n result self.now.bells }
    {
        let mut code = 0;
        let mut weight = 1;
        // the number of bells before is a factor too, so the loop counts them
        for at in 1..12 {
            weight *= at as u32;
            code += count_greater(&self.bells[..at], self.bells[at]) * weight;
        }
        code
    }

    // The row on the stage with this code, or the refusal of a number that is not below n!.
    pub fn of_code(stage: Stage, code: u32) -> Result<Row, RowFault>
        ensures { MatchResult result (λ row. HasCode stage.bells code row.bells) (λ e. (e ≡ NoRow) × (fact stage.bells ≤ code)) }
    {
        let mut bells = Row::rounds().bells;
        let mut rest = code;
        // the number of places is what is divided by, so the loop counts them
        for at in 1..stage.bells as usize {
            let places = at as u32 + 1;
            let greater = (rest % places) as u8;
            rest /= places;
            insert(&mut bells, at, places as u8 - greater);
        }
        if rest > 0 {
            return Err(RowFault::Row);
        }
        Ok(Row { bells })
    }
}
