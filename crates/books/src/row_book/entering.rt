// Entering the rows of a lead in a register, and taking them back.
ghost use Rattle.std.specs.Prelude.{◌≡◌, ◌+◌, ◌^◌, ◌<◌, map};
ghost use Rattle.books.specs.Forms.{shape};
ghost use Rattle.books.specs.Ringing.{without, row_answer, row_entered, Enters};
ghost use Rattle.rows.specs.Rows.{times};

use crate::fault::RingFault;
use forms::form::Form;
use registers::entered::Entered;
use registers::register::Register;
use rows::row::Row;

// Takes back the last entries, as many of this number as there are.
pub(crate) fn take_back_rows<R: Register<Row>>(register: &mut R, number: usize)
    ensures { R.Register.shelf register.new ≡ without number (R.Register.shelf register.old) }
{
    for _ in 0..number {
        let _ = register.take_back();
    }
}

// Enters one row at its place; a row that is held already, and where.
fn enter_row<R: Register<Row>>(register: &mut R, row: &Row, place: usize) -> Result<(), RingFault>
    requires { place < 2 ^ 32 }
    ensures answer { result ≡ row_answer place row.now.bells (R.Register.shelf register.old) }
    ensures after { R.Register.shelf register.new ≡ row_entered place row.now.bells (R.Register.shelf register.old) }
{
    match register.enter(row, place as u32)? {
        Entered::Added => Ok(()),
        Entered::Held(old) => Err(RingFault::Again {
            new: place,
            old: old as usize,
        }),
    }
}

// Enters the rows of a lead with this head, from a place on. If one is turned down, those before it are taken back.
pub(crate) fn enter_rows<R: Register<Row>>(
    register: &mut R,
    head: &Row,
    form: &Form,
    place: usize,
) -> Result<(), RingFault>
    requires { place + 64 < 2 ^ 32 }
    ensures { Enters (R.Register.shelf register.old) place (map (times head.now.bells) (shape form.now).rows) result (R.Register.shelf register.new) }
{
    for (j, rung) in form.rows()[..form.changes.count].iter().enumerate() {
        let row = head.times(rung);
        if let Err(fault) = enter_row(register, &row, place + j) {
            take_back_rows(register, j);
            return Err(fault);
        }
    }
    Ok(())
}
