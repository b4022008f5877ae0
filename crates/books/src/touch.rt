// The leads that stand, the head that comes next, and how many rows they have. Both kinds of book keep them so.
ghost use Rattle.std.specs.Prelude.{◌≡◌, ◌+◌, ◌^◌, ◌<◌, ◌≤◌, [], ◌∷◌, ◌++◌, length, vec_len, vec_capacity};
ghost use Rattle.books.specs.Forms.{shape};
ghost use Rattle.books.specs.Touches.{LastOf, Removed};
ghost use Rattle.rows.specs.Rows.{times};

use crate::lead::Lead;
use forms::form::Form;
use rows::row::Row;

#[derive(Drop)]
pub struct Touch {
    pub(crate) leads: Vec<Lead>,
    pub(crate) next: Row,
    pub(crate) rows: usize,
}

impl Touch {
    // The lead of this form with the next head stands last.
    pub(crate) fn add(&mut self, form: u8, rung: &Form)
        requires leads_len_bound { vec_len self.old.leads < vec_capacity self.old.leads }
        requires rows_bound { self.old.rows + 64 < 2 ^ 64 }
        ensures leads { self.new.leads.items ≡ self.old.leads.items ++ record { form = form; head = self.old.next } ∷ [] }
        ensures room { vec_capacity self.new.leads ≡ vec_capacity self.old.leads }
        ensures next { self.new.next.bells ≡ times self.old.next.bells (shape rung.now).turn }
        ensures rows { self.new.rows ≡ self.old.rows + length (shape rung.now).rows }
    {
        let head = self.next;
        self.leads.push_reserved(Lead { form, head });
        self.next = head.times(&rung.turn());
        self.rows += rung.changes.count;
    }

    // The last lead.
    pub(crate) fn last(&self) -> Option<Lead>
        ensures { LastOf self.now.leads.items result }
    {
        self.leads.last().copied()
    }

    // The last lead, which has this many rows, goes; its head comes next again.
    pub(crate) fn remove(&mut self, rows: usize)
        requires { rows ≤ self.old.rows }
        ensures stands { Removed self.old rows self.new }
        ensures room { vec_capacity self.new.leads ≡ vec_capacity self.old.leads }
    {
        if let Some(lead) = self.leads.pop() {
            self.next = lead.head;
            self.rows -= rows;
        }
    }
}
