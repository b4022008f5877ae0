// The row book: the leads that stand, the next head, the length, and a register with every row at its place.
ghost use Rattle.std.specs.Prelude.{◌≡◌, ◌≤◌, length, vec_len, vec_capacity};
ghost use Rattle.books.specs.Forms.{shapes, leads_in, FormsKnown};
ghost use Rattle.books.specs.Leads.{next_head, rows_of, Linked};
ghost use Rattle.forms.specs.Staged.{FormsOn};

use crate::touch::Touch;
use forms::form::Form;
use rows::stage::Stage;

#[derive(Drop)]
pub struct RowBook<'f, R> {
    pub(crate) stage: Stage,
    pub(crate) forms: &'f [Form],
    pub(crate) limit: usize,
    pub(crate) touch: Touch,
    pub(crate) register: R,
    ghost few: { vec_len touch.leads ≤ limit },
    ghost small: { limit ≤ 1280 },
    // so that a ring never wants memory
    ghost room: { limit ≤ vec_capacity touch.leads },
    ghost staged: { FormsOn stage.bells forms.now },
    ghost known: { FormsKnown (length forms.now) touch.leads.items },
    ghost headed: { touch.next.bells ≡ next_head (shapes forms.now) (leads_in touch.leads.items) },
    ghost linked: { Linked (shapes forms.now) (leads_in touch.leads.items) },
    ghost long: { touch.rows ≡ length (rows_of (shapes forms.now) (leads_in touch.leads.items)) },
}
