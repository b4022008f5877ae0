// The commands that the lines of a sheet hold.
ghost use Rattle.std.specs.Prelude.{◌≡◌};
ghost use Rattle.lead.specs.Sheets.{byte_of, StageOf, MethodOf, CallOf, Known, Parsed};

use sheets::words::{cut, number};

// A letter or a mark that is not exactly one byte is none that a form may have.
#[derive(Clone, Copy)]
pub enum Command<'a> {
    // nothing to answer
    Blank,
    Stage {
        bells: usize,
    },
    Method {
        letter: Option<u8>,
        notation: &'a [u8],
    },
    Call {
        letter: Option<u8>,
        mark: Option<u8>,
        notation: &'a [u8],
    },
    Unknown {
        word: &'a [u8],
    },
}

// The byte of an argument that has exactly one.
fn single(argument: &[u8]) -> Option<u8>
    ensures { result ≡ byte_of argument.now }
{
    match argument {
        [byte] => Some(*byte),
        _ => None,
    }
}

fn method<'a>(arguments: &'a [u8]) -> Option<Command<'a>>
    ensures { MethodOf arguments.now result }
{
    let (letter, notation) = cut(arguments, b' ')?;
    let letter = single(letter);
    Some(Command::Method { letter, notation })
}

fn call<'a>(arguments: &'a [u8]) -> Option<Command<'a>>
    ensures { CallOf arguments.now result }
{
    let (letter, rest) = cut(arguments, b' ')?;
    let (mark, notation) = cut(rest, b' ')?;
    let letter = single(letter);
    let mark = single(mark);
    Some(Command::Call {
        letter,
        mark,
        notation,
    })
}

fn stage<'a>(arguments: &'a [u8]) -> Option<Command<'a>>
    ensures { StageOf arguments.now result }
{
    let bells = number(arguments)?;
    Some(Command::Stage { bells })
}

// The command that a word and its arguments make, if they make one.
fn known<'a>(word: &[u8], arguments: &'a [u8]) -> Option<Command<'a>>
    ensures { Known word.now arguments.now result }
{
    match word {
        b"stage" => stage(arguments),
        b"method" => method(arguments),
        b"call" => call(arguments),
        _ => None,
    }
}

// What a line says.
pub fn parse<'a>(line: &'a [u8]) -> Command<'a>
    ensures { Parsed line.now result }
{
    match line {
        [] | [b'#', ..] => Command::Blank,
        _ => match cut(line, b' ') {
            Some((word, arguments)) => {
                known(word, arguments).unwrap_or(Command::Unknown { word })
            }
            None => Command::Unknown { word: line },
        },
    }
}
