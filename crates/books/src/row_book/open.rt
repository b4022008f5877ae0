// Opening a row book.
ghost use Rattle.std.specs.Prelude.{◌≡◌, ◌≤◌, false, [], MatchResult};
ghost use Rattle.books.specs.Opening.{Openable, RefusedFor, Obstacle};
ghost use Rattle.rows.specs.Code.{fact};

use crate::fault::OpeningFault;
use crate::row_book::state::RowBook;
use crate::touch::Touch;
use causes::Returned;
use forms::list::{Forms, ListState};
use registers::register::Register;
use rows::row::Row;
use rows::stage::Stage;
use std::alloc::Global;

// n!
fn factorial(bells: u8) -> u64
    requires { bells ≤ 12 }
    ensures { result ≡ fact bells }
{
    (1..=u64::from(bells)).product()
}

// Whether a book with this limit can be opened on this register; a fault where it cannot.
fn check<R: Register<Row>>(stage: Stage, limit: usize, register: &R) -> Result<(), OpeningFault>
    ensures { Obstacle stage.bells limit (R.Register.shelf register.now) result }
{
    if !(1..=1280).contains(&limit) {
        return Err(OpeningFault::Limit);
    }
    if register.count() > 0 {
        return Err(OpeningFault::Held);
    }
    let rows = factorial(stage.bells);
    if register.reach() < rows || (register.capacity() as u64) < rows.min(64 * limit as u64) {
        return Err(OpeningFault::Small);
    }
    Ok(())
}

impl<'f, R: Register<Row>> RowBook<'f, R> {
    // A book with no lead. It reserves the memory for as many leads as the limit allows, and is the only call here that may want memory.
    pub fn open<S: ListState>(
        heap: Global,
        forms: &'f Forms<S>,
        limit: usize,
        register: R,
    ) -> Result<RowBook<'f, R>, Returned<R, OpeningFault>>
        requires { S.ListState.open ≡ false }
        ensures opens { MatchResult result (λ _. Openable forms.now.stage.bells limit (R.Register.shelf register)) (λ e. RefusedFor forms.now.stage.bells limit (R.Register.shelf register) e.fault) }
        ensures stands { MatchResult result (λ b. (b.forms.now ≡ forms.now.list.items) × (b.stage ≡ forms.now.stage) × (b.limit ≡ limit) × (b.register ≡ register) × (b.touch.leads.items ≡ [])) (λ e. e.value ≡ register) }
    {
        if let Err(fault) = check(forms.stage(), limit, &register) {
            return Err(Returned {
                value: register,
                fault,
            });
        }
        let Ok(leads) = Vec::with_capacity(heap, limit) else {
            return Err(Returned {
                value: register,
                fault: OpeningFault::Memory,
            });
        };
        Ok(RowBook {
            stage: forms.stage(),
            forms: forms.all(),
            limit,
            touch: Touch {
                leads,
                next: Row::rounds(),
                rows: 0,
            },
            register,
        })
    }

    // The register, with what the book has entered in it.
    pub fn close(self) -> R
        ensures { result ≡ self.entry.register }
    {
        self.register
    }
}
