// The change that is written with some places.
ghost use Rattle.notation.specs.Changes.{ascending, making, made, can_ring};
ghost use Rattle.notation.specs.Written.{Written};
ghost use Rattle.rows.specs.Text.{named};
ghost use Rattle.std.specs.Prelude.{◌≡◌, true, false, [], map, MatchOption};

use crate::change::Change;
use crate::fault::Fault;
use rows::stage::Stage;
use rows::text::bell_named;

// Twelve places not made, and behind them twelve made.
const EDGE: [bool; 24] = [
    false, false, false, false, false, false, false, false, false, false, false, false, true, true,
    true, true, true, true, true, true, true, true, true, true,
];

// No place made but those of the covers.
fn covers(stage: Stage) -> [bool; 12]
    ensures { result ≡ making stage.bells [] }
{
    let n = stage.bells as usize;
    let mut made = [false; 12];
    // twelve of them on every stage, so that this is a copy of fixed size
    made.copy_from_slice(&EDGE[12 - n..24 - n]);
    made
}

// The places made in a change with these places written, unless they do not ascend or pass the stage.
fn places_made(stage: Stage, digits: &[u8]) -> Option<[bool; 12]>
    ensures { MatchOption result (ascending stage.bells (map named digits.now) ≡ false) (λ m. (ascending stage.bells (map named digits.now) ≡ true) × (m ≡ made stage.bells (map named digits.now))) }
{
    let mut made = covers(stage);
    let mut first = None;
    let mut last = 0;
    for digit in digits {
        let place = bell_named(*digit)?;
        if place <= last || place > stage.bells {
            return None;
        }
        made[place as usize - 1] = true;
        first = first.or(Some(place));
        last = place;
    }
    if let Some(first) = first {
        if first % 2 == 0 {
            made[0] = true;
        }
        if (stage.bells - last) % 2 == 1 {
            made[stage.bells as usize - 1] = true;
        }
    }
    Some(made)
}

// Whether no place is left over and some pair crosses.
fn rings(made: &[bool; 12]) -> bool
    ensures { result ≡ can_ring made.now }
{
    let mut crossed = false;
    let mut p = 0;
    // a step is one place or two, so this is no `for`
    while let Some(stays) = made.get(p) {
        if *stays {
            p += 1;
        } else if let Some(next) = made.get(p + 1)
            && !*next
        {
            crossed = true;
            p += 2;
        } else {
            return false;
        }
    }
    crossed
}

impl Change {
    // The change with these places written, which begins at this byte; a cross has none.
    pub fn written(stage: Stage, digits: &[u8], at: usize) -> Result<Change, Fault>
        ensures { Written stage.bells (map named digits.now) at result }
    {
        let Some(made) = places_made(stage, digits) else {
            return Err(Fault::Places(at));
        };
        if !rings(&made) {
            return Err(Fault::Unrung(at));
        }
        Ok(Change { made })
    }
}
