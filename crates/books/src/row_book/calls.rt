// The calls of a row book.
ghost use Rattle.std.specs.Prelude.{◌≡◌, ℕ};
ghost use Rattle.books.specs.Forms.{shapes, leads_in};
ghost use Rattle.books.specs.Leads.{Shape, Lead as LeadModel, rows_of};
ghost use Rattle.books.specs.Opening.{Large};
ghost use Rattle.books.specs.Ringing.{Holds};

use crate::book::Book;
use crate::call::Certificate;
use crate::fault::{RingFault, TakeBackFault, VerdictFault};
use crate::row_book::entering::{enter_rows, take_back_rows};
use crate::row_book::state::RowBook;
use registers::register::Register;
use rows::row::Row;

impl<'f, R: Register<Row>> Book for RowBook<'f, R> {
    ghost forms = { λ b. shapes b.forms.now };

    ghost limit = { λ b. b.limit };

    ghost leads = { λ b. leads_in b.touch.leads.items };

    ghost kept = { λ b. Holds (R.Register.shelf b.register).entries (rows_of (shapes b.forms.now) (leads_in b.touch.leads.items)) × Large b.stage.bells b.limit (R.Register.shelf b.register) };

    fn count(&self) -> usize {
        self.touch.leads.len()
    }

    fn ring(&mut self, form: u8) -> Result<usize, RingFault> {
        let rung = self.forms.get(form as usize).ok_or(RingFault::Form)?;
        let stand = self.touch.leads.len();
        if stand >= self.limit {
            return Err(RingFault::Limit);
        }
        let head = self.touch.next;
        enter_rows(&mut self.register, &head, rung, self.touch.rows)?;
        self.touch.add(form, rung);
        Ok(stand + 1)
    }

    fn take_back(&mut self) -> Result<u8, TakeBackFault> {
        let lead = self.touch.last().ok_or(TakeBackFault::Leads)?;
        let rows = self.forms[lead.form as usize].changes.count;
        take_back_rows(&mut self.register, rows);
        self.touch.remove(rows);
        Ok(lead.form)
    }

    fn verdict(&self, claimed: usize) -> Result<Certificate, VerdictFault> {
        let leads = self.touch.leads.len();
        let rows = self.touch.rows;
        if leads == 0 {
            return Err(VerdictFault::Leads);
        }
        if self.touch.next != Row::rounds() {
            return Err(VerdictFault::Head);
        }
        if rows != claimed {
            return Err(VerdictFault::Length(rows));
        }
        Ok(Certificate { rows, leads })
    }
}
