// A lead form: its letter and mark, its changes, and the rows that they ring from rounds on.
ghost use Rattle.std.specs.Prelude.{◌≡◌, ℕ, suc, ◌<◌, ◌≤◌, map, length, take};
ghost use Rattle.forms.specs.Leads.{lead_rows, NoRepeat};
ghost use Rattle.forms.specs.Repeats.{bells_of};
ghost use Rattle.notation.specs.Drafts.{listed};

use notation::changes::Changes;
use rows::row::Row;

// Which form of a method this is: plain, or with a bob or a single at the end of the lead.
#[derive(Clone, Copy, PartialEq, Eq)]
pub enum Mark {
    Plain,
    Bob,
    Single,
}

#[derive(Clone, Copy)]
pub struct Form {
    pub letter: u8,
    pub mark: Mark,
    pub changes: Changes,
    // r(0), which is rounds, to r(L), the turn; the rest is unused. An array, since adding a form asks for no memory
    pub rows: [Row; 65],
    ghost some: { 0 < changes.count },
    ghost rung: { map bells_of (take (suc changes.count) rows) ≡ lead_rows (listed changes) },
    ghost apart: { NoRepeat (listed changes) },
}
