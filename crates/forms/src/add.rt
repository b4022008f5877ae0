// Adding forms to an open list.
ghost use Rattle.std.specs.Prelude.{◌≡◌, ◌<◌, true, length, Decides, ◌≤◌, MatchBool, MatchOption};
ghost use Rattle.forms.specs.Adding.{FormWith, NoForm, FormAt, MayMethod, Stores, AddsMethod, AddsCall};
ghost use Rattle.forms.specs.Leads.{ChangesOn};
ghost use Rattle.forms.specs.declared.form.Form.{Form as FormValue};
ghost use Rattle.forms.specs.declared.form.Mark.TheVariants.{Plain};
ghost use Rattle.notation.specs.Drafts.{listed};

use crate::ending::with_ending;
use crate::fault::FormFault;
use crate::form::{Form, Mark};
use crate::lead::{first_repeat, lead_rows};
use crate::list::{Forms, ListState};
use notation::changes::Changes;
use notation::reader::read;

impl<S: ListState> Forms<S> {
    // The number of the form with this letter and mark.
    pub fn number_of(&self, letter: u8, mark: Mark) -> Option<usize>
        ensures { MatchOption result (NoForm self.now.list.items letter mark) (FormAt self.now.list.items letter mark) }
    {
        self.list
            .iter()
            .position(|form| form.letter == letter && form.mark == mark)
    }

    // Whether no form has this letter and mark.
    fn is_free(&self, letter: u8, mark: Mark) -> bool
        ensures { Decides result (NoForm self.now.list.items letter mark) }
    {
        self.number_of(letter, mark).is_none()
    }

    fn is_full(&self) -> bool
        ensures { MatchBool result (16 ≤ length self.now.list.items) (length self.now.list.items < 16) }
    {
        self.list.len() >= 16
    }

    // Whether a method may have this letter.
    fn takes_method(&self, letter: u8) -> bool
        ensures { Decides result (MayMethod self.now.list.items letter) }
    {
        letter.is_ascii_uppercase() && self.is_free(letter, Mark::Plain)
    }

    // The method that a call with this letter and mark is of, if there may be such a call.
    fn called_method(&self, letter: u8, mark: Mark) -> Option<&Form>
        ensures { MatchOption result ((f : FormValue) → FormWith self.now.list.items letter Plain f → NoForm self.now.list.items letter mark → ⊥) (λ f. FormWith self.now.list.items letter Plain f.now × NoForm self.now.list.items letter mark) }
    {
        if !self.is_free(letter, mark) {
            return None;
        }
        self.form(self.number_of(letter, Mark::Plain)?)
    }

    // Stores a form with these changes at the end, unless its lead repeats a row.
    fn store(&mut self, letter: u8, mark: Mark, changes: Changes) -> Result<usize, FormFault>
        requires room { length self.old.list.items < 16 }
        requires some { 0 < changes.count }
        requires staged { ChangesOn self.old.stage.bells (listed changes) }
        ensures answer { Stores self.old.list.items self.new.list.items letter mark (listed changes) result }
        ensures stage { self.new.stage ≡ self.old.stage }
    {
        let rows = lead_rows(&changes);
        if let Some((j, i)) = first_repeat(&rows[..changes.count]) {
            return Err(FormFault::Repeat(j, i));
        }
        let number = self.list.len();
        self.list.push_reserved(Form {
            letter,
            mark,
            changes,
            rows,
        });
        Ok(number)
    }

    // Adds a method, whose notation gives the whole lead, and answers its number.
    pub fn add_method(&mut self, letter: u8, text: &[u8]) -> Result<usize, FormFault>
        requires { S.ListState.open ≡ true }
        ensures answer { AddsMethod self.old.stage.bells self.old.list.items self.new.list.items letter text.now result }
        ensures stage { self.new.stage ≡ self.old.stage }
    {
        if !self.takes_method(letter) {
            return Err(FormFault::Letter);
        }
        if self.is_full() {
            return Err(FormFault::Full);
        }
        let changes = read(self.stage, text)?;
        self.store(letter, Mark::Plain, changes)
    }

    // Adds a call of a method: the changes of its notation replace as many at the end of the lead.
    pub fn add_call(&mut self, letter: u8, mark: u8, text: &[u8]) -> Result<usize, FormFault>
        requires { S.ListState.open ≡ true }
        ensures answer { AddsCall self.old.stage.bells self.old.list.items self.new.list.items letter mark text.now result }
        ensures stage { self.new.stage ≡ self.old.stage }
    {
        let mark = Mark::try_from(mark)?;
        let method = self.called_method(letter, mark).ok_or(FormFault::Letter)?;
        if self.is_full() {
            return Err(FormFault::Full);
        }
        let ending = read(self.stage, text)?;
        let changes = with_ending(&method.changes, &ending).ok_or(FormFault::Ending)?;
        self.store(letter, mark, changes)
    }
}

#[cfg(test)]
mod tests {
    use super::*;
    use rows::stage::Stage;
    use std::test::Fail;

    #[test]
    fn plain_bob_minor(rt: HostRuntime) -> Result<(), Fail> {
        let mut forms = Forms::begin(rt.alloc(), Stage::new(6)?)?;
        assert_eq!(rt; forms.add_method(b'A', b"&-16-16-16,12"), Ok(0));
        assert_eq!(rt; forms.add_call(b'A', b'-', b"14"), Ok(1));
        assert_eq!(rt;
            forms.add_method(b'A', b"&-16-16-16,12"),
            Err(FormFault::Letter)
        );
        assert_eq!(rt; forms.list.len(), 2);
        assert_eq!(rt;
            &forms.list[0].turn().characters()[0..6],
            b"135264".as_slice()
        );
        assert_eq!(rt;
            &forms.list[1].turn().characters()[0..6],
            b"123564".as_slice()
        );
        Ok(())
    }
}
