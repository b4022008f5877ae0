// A list of forms, open or closed.
ghost use Rattle.std.specs.Prelude.{◌≡◌, ◌<◌, ◌≤◌, Bool, true, false, length, vec_len, vec_capacity, MatchOption};
ghost use Rattle.forms.specs.Staged.{FormsOn};
ghost use Rattle.std.specs.List.{HoldsAt};

use crate::form::Form;
use rows::stage::Stage;

// Whether forms may still be added.
pub trait ListState {
    ghost open: { Bool };
}

#[derive(Clone, Copy)]
pub struct Open;

#[derive(Clone, Copy)]
pub struct Closed;

impl ListState for Open {
    ghost open = { true };
}

impl ListState for Closed {
    ghost open = { false };
}

#[derive(Drop)]
pub struct Forms<S> {
    pub(crate) stage: Stage,
    // in the order in which they were added, which numbers them from 0
    pub(crate) list: Vec<Form>,
    pub(crate) state: S,
    ghost few: { vec_len list ≤ 16 },
    // so that adding a form never wants memory
    ghost room: { 16 ≤ vec_capacity list },
    ghost staged: { FormsOn stage.bells list.items },
}

impl<S> Forms<S> {
    pub fn stage(&self) -> Stage
        ensures { result ≡ self.now.stage }
    {
        self.stage
    }

    // The forms, in the order of their numbers.
    pub fn all(&self) -> &[Form]
        ensures items { result.now ≡ self.now.list.items }
        ensures few { length result.now ≤ 16 }
        ensures staged { FormsOn self.now.stage.bells result.now }
    {
        self.list.as_slice()
    }

    // The form with this number.
    pub fn form(&self, number: usize) -> Option<&Form>
        ensures { MatchOption result (length self.now.list.items ≤ number) (λ f. (number < length self.now.list.items) × HoldsAt (λ x. f.now ≡ x) self.now.list.items number) }
    {
        self.list.get(number)
    }
}
