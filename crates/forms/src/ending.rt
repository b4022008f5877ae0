// The end of a lead, replaced.
ghost use Rattle.std.specs.Prelude.{◌≡◌, ◌-◌, ◌<◌, ◌≤◌, ◌++◌, length, take, MatchOption};
ghost use Rattle.notation.specs.Drafts.{listed};

use notation::changes::Changes;

// The lead in which these changes replace as many at its end; none if it has not as many.
pub(crate) fn with_ending(lead: &Changes, ending: &Changes) -> Option<Changes>
    ensures { MatchOption result (length (listed lead.now) < length (listed ending.now)) (λ c. (length (listed ending.now) ≤ length (listed lead.now)) × (listed c ≡ take (length (listed lead.now) - length (listed ending.now)) (listed lead.now) ++ listed ending.now)) }
{
    let from = lead.count.checked_sub(ending.count)?;
    let mut changes = *lead;
    changes.list[from..lead.count].copy_from_slice(ending.as_slice());
    Some(changes)
}
