// The changes of a notation, in the order in which they are rung: at most 64.
ghost use Rattle.std.specs.Prelude.{◌≡◌, ◌≤◌, length, take};

use crate::change::Change;

#[derive(Clone, Copy)]
pub struct Changes {
    // an array with its count, and no `Vec`, since reading a notation asks for no memory
    pub list: [Change; 64],
    pub count: usize,
    ghost room: { length list ≡ 64 },
    ghost few: { count ≤ 64 },
}

impl Changes {
    ghost use Rattle.std.specs.Prelude.{◌+◌, ◌-◌, ◌<◌, List, [], ◌∷◌, ◌++◌, drop, reverse, MatchOption, MatchResult};
    ghost use Rattle.notation.specs.Drafts.{listed, mirrored};

    // No change yet.
    #[tactic(auto, unfolding(crate::specs::Changes::can_ring))]
    pub(crate) fn empty() -> Changes
        ensures { result.count ≡ 0 }
    {
        Changes {
            list: [Change { made: [false; 12] }; 64],
            count: 0,
        }
    }

    // The changes that there are.
    pub fn as_slice(&self) -> &[Change]
        ensures { result.now ≡ take self.now.count self.now.list }
    {
        &self.list[..self.count]
    }

    // Adds a change behind the others, or hands it back if there is no room.
    pub(crate) fn push(&mut self, change: Change) -> Result<(), Change>
        ensures { MatchResult result (λ _. listed self.new ≡ listed self.old ++ change.made ∷ []) (λ back. (back ≡ change) × (self.new ≡ self.old) × (self.old.count ≡ 64)) }
    {
        if self.count == self.list.len() {
            return Err(change);
        }
        self.list[self.count] = change;
        self.count += 1;
        Ok(())
    }

    // Adds again the changes from this one on except the last, backwards, unless there is no room for them.
    pub(crate) fn double(&mut self, from: usize) -> Option<()>
        requires { from ≤ self.old.count }
        ensures again { let again = mirrored (drop from (listed self.old)) in MatchOption result (64 < self.old.count + length again) (λ _. listed self.new ≡ listed self.old ++ again) }
        ensures longer { self.old.count ≤ self.new.count }
    {
        let end = self.count;
        for back in 1..end - from {
            let change = self.list[end - 1 - back];
            self.push(change).ok()?;
        }
        Some(())
    }
}
