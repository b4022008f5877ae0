// Beginning and closing a list of forms.
ghost use Rattle.forms.specs.Adding.{OfMethod};
ghost use Rattle.std.specs.Prelude.{◌≡◌, true, [], IfOk};

use crate::fault::FormFault;
use crate::list::{Closed, Forms, ListState, Open};
use rows::stage::Stage;
use std::alloc::{AllocError, Global};

// A list in this state with no form, and with the memory for all sixteen.
fn empty<S: Drop>(heap: Global, stage: Stage, state: S) -> Result<Forms<S>, AllocError>
    ensures { IfOk result (λ f. (f.stage ≡ stage) × (f.list.items ≡ [])) }
{
    let list = Vec::with_capacity(heap, 16)?;
    Ok(Forms { stage, list, state })
}

impl Forms<Open> {
    // A new list with no form. It reserves the memory for all sixteen, and is the only call here that may want memory.
    pub fn begin(heap: Global, stage: Stage) -> Result<Forms<Open>, AllocError>
        ensures { IfOk result (λ f. (f.stage ≡ stage) × (f.list.items ≡ [])) }
    {
        empty(heap, stage, Open)
    }
}

impl<S: ListState + Drop> Forms<S> {
    // The same forms, to which none is added any more. A list is closed once.
    pub fn close(self) -> Forms<Closed>
        requires { S.ListState.open ≡ true }
        ensures { (result.stage ≡ self.stage) × (result.list.items ≡ self.list.items) }
    {
        Forms {
            stage: self.stage,
            list: self.list,
            state: Closed,
        }
    }
}

impl Forms<Closed> {
    // The closed list of one method.
    pub fn of_method(
        heap: Global,
        stage: Stage,
        letter: u8,
        text: &[u8],
    ) -> Result<Result<Forms<Closed>, FormFault>, AllocError>
        ensures { IfOk result (OfMethod stage letter text.now) }
    {
        let mut forms = empty(heap, stage, Open)?;
        let added = forms.add_method(letter, text);
        let closed = forms.close();
        Ok(added.map(|_| closed))
    }
}
