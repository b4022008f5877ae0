// The rows of a form.
ghost use Rattle.std.specs.Prelude.{◌≡◌, ◌<◌, ◌≤◌, map, MatchOption};
ghost use Rattle.forms.specs.Leads.{lead_rows, row_at, turn};
ghost use Rattle.forms.specs.Repeats.{bells_of};
ghost use Rattle.notation.specs.Drafts.{listed};

use crate::form::Form;
use rows::row::Row;

impl Form {
    // r(0), which is rounds, to r(L), the turn.
    pub fn rows(&self) -> &[Row]
        ensures { map bells_of result.now ≡ lead_rows (listed self.now.changes) }
    {
        &self.rows[..=self.changes.count]
    }

    // r(j), for j from 0 to L.
    pub fn row(&self, j: usize) -> Option<Row>
        ensures { MatchOption result (self.now.changes.count < j) (λ row. (j ≤ self.now.changes.count) × (row.bells ≡ row_at (listed self.now.changes) j)) }
    {
        self.rows().get(j).copied()
    }

    // r(L).
    pub fn turn(&self) -> Row
        ensures { result.bells ≡ turn (listed self.now.changes) }
    {
        self.rows[self.changes.count]
    }
}
