// The rows of a lead, and the row that it repeats, if it does.
ghost use Rattle.std.specs.Prelude.{◌≡◌, suc, map, length, take};
ghost use Rattle.forms.specs.Leads.{lead_rows};
ghost use Rattle.forms.specs.Repeats.{RepeatIn, bells_of};
ghost use Rattle.notation.specs.Drafts.{listed};

use notation::changes::Changes;
use rows::row::Row;

// r(0), which is rounds, to r(L), the turn.
pub(crate) fn lead_rows(changes: &Changes) -> [Row; 65]
    ensures { map bells_of (take (suc changes.now.count) result) ≡ lead_rows (listed changes.now) }
{
    let mut rows = [Row::rounds(); 65];
    // each row is rung on the one before it in the same array, so both go by place
    for (j, change) in changes.as_slice().iter().enumerate() {
        rows[j + 1] = change.apply(&rows[j]);
    }
    rows
}

// The first place whose row stood already, and the place before it where it stood.
pub(crate) fn first_repeat(rows: &[Row]) -> Option<(usize, usize)>
    ensures { RepeatIn (map bells_of rows.now) (length rows.now) result }
{
    'search: {
        for (j, row) in rows.iter().enumerate() {
            for (i, earlier) in rows[..j].iter().enumerate() {
                if earlier == row {
                    break 'search Some((j, i));
                }
            }
        }
        None
    }
}
