// Answering a sheet line by line.
ghost use Rattle.std.specs.Prelude.{◌≡◌, None};

use crate::command::{Command, parse};
use forms::fault::FormFault;
use forms::list::{Forms, Open};
use rows::stage::Stage;
use sheets::print::{Refused, not_understood};
use sheets::words::Lines;
use std::alloc::Global;
use std::io;
use std::io::{BufWriter, Stdout, Write};

#[derive(Drop)]
pub struct Sheet<'o> {
    heap: Global,
    // the list that the last stage began
    pub forms: Option<Forms<Open>>,
    out: &'o mut BufWriter<Stdout>,
}

// An accepted form: its number, its turn and its rows.
fn print_form(
    word: &str,
    forms: &Forms<Open>,
    number: usize,
    out: &mut BufWriter<Stdout>,
) -> io::Result<()> {
    let Some(form) = forms.form(number) else {
        return Ok(());
    };
    let stage = forms.stage();
    let count = form.changes.count;
    let turn = form.turn();
    writeln!(
        out,
        "{word}: form {number}, {count} changes, turn {}",
        turn.on(stage)
    )?;
    for (j, row) in form.rows().iter().enumerate() {
        writeln!(out, "{j} {}", row.on(stage))?;
    }
    Ok(())
}

impl<'o> Sheet<'o> {
    // No stage stands yet.
    pub fn new(heap: Global, out: &'o mut BufWriter<Stdout>) -> Sheet<'o>
        ensures { result.forms ≡ None }
    {
        Sheet {
            heap,
            forms: None,
            out,
        }
    }

    // A new, empty list of forms; after a refused stage none stands.
    fn stage(&mut self, bells: usize) -> io::Result<()> {
        self.forms = None;
        match Stage::new(bells) {
            Ok(stage) => {
                self.forms = Some(Forms::begin(self.heap, stage)?);
                writeln!(self.out, "stage: {bells} bells")
            }
            Err(fault) => writeln!(self.out, "stage: {}", Refused(&fault)),
        }
    }

    // A form more in the list that stands, if it is not refused.
    fn add<F: FnOnce(&mut Forms<Open>) -> Result<usize, FormFault>>(
        &mut self,
        word: &str,
        form: F,
    ) -> io::Result<()>
        requires { F.IsAlwaysCallable form }
    {
        let Some(forms) = &mut self.forms else {
            // as bytes, since a formatted write takes longer
            self.out.write_all(word.as_bytes())?;
            return self.out.write_all(b": no stage yet\n");
        };
        match form(forms) {
            Ok(number) => print_form(word, forms, number, self.out),
            Err(fault) => writeln!(self.out, "{word}: {}", Refused(&fault)),
        }
    }

    fn answer_line(&mut self, line: &[u8]) -> io::Result<()> {
        match parse(line) {
            Command::Blank => Ok(()),
            Command::Stage { bells } => self.stage(bells),
            Command::Method { letter, notation } => self.add("method", |forms| {
                let letter = letter.ok_or(FormFault::Letter)?;
                forms.add_method(letter, notation)
            }),
            Command::Call {
                letter,
                mark,
                notation,
            } => self.add("call", |forms| {
                let letter = letter.ok_or(FormFault::Letter)?;
                let mark = mark.ok_or(FormFault::Letter)?;
                forms.add_call(letter, mark, notation)
            }),
            Command::Unknown { word } => not_understood(word, self.out),
        }
    }

    pub fn answer(&mut self, sheet: &[u8]) -> io::Result<()> {
        for line in Lines::of(sheet) {
            self.answer_line(line)?;
        }
        Ok(())
    }
}
