// What every program prints in the same way.
ghost use Rattle.causes.specs.Shown.{cause_shown};
ghost use Rattle.std.specs.Fmt.{◌++?◌};
ghost use Rattle.std.specs.Prelude.{Some, codes};

use causes::Refusal;
use std::fmt::Display;
use std::io::{BufWriter, Stdout, Write};
use std::{fmt, io};

// A refusal as it is printed: its number, its values, and what it means.
#[derive(Clone, Copy)]
pub struct Refused<'r, R>(pub &'r R);

impl<'r, R: Refusal + Display> Display for Refused<'r, R> {
    ghost output = { λ r. Some (cause_shown (R.caused r.0.now)) ++? Some (codes " (") ++? R.output r.0.now ++? Some (codes ")") };

    fn fmt<W: fmt::Write>(&self, f: &mut fmt::Formatter<W>) -> fmt::Result {
        let Refused(refusal) = self;
        let cause = refusal.cause();
        write!(f, "{cause} ({refusal})")
    }
}

// A line that says nothing the program knows; its word is printed as it came.
pub fn not_understood(word: &[u8], out: &mut BufWriter<Stdout>) -> io::Result<()> {
    out.write_all(word)?;
    out.write_all(b": not understood\n")
}
