// The commands of a script.
ghost use Rattle.std.specs.Prelude.{MatchOption};
ghost use Rattle.trace.specs.Script.{MarkOf, NoMark, LendOf, EnterOf, Known, Alone, Parsed};

use sheets::words::{cut, cut_last, number};

#[derive(Clone, Copy)]
pub enum Command<'a> {
    // nothing to answer
    Blank,
    Lend { nodes: usize, cells: usize },
    Rows,
    Clashes,
    Enter { key: &'a [u8], mark: u32 },
    Find { key: &'a [u8] },
    Count,
    Back,
    Unknown { word: &'a [u8] },
}

fn lend<'a>(arguments: &[u8]) -> Option<Command<'a>>
    ensures { LendOf arguments.now result }
{
    let (first, second) = cut(arguments, b' ')?;
    let nodes = number(first)?;
    let cells = number(second)?;
    Some(Command::Lend { nodes, cells })
}

// A mark is a number of 32 bits.
fn mark(text: &[u8]) -> Option<u32>
    ensures { MatchOption result (NoMark text.now) (MarkOf text.now) }
{
    u32::try_from(number(text)?).ok()
}

// The mark is the last word, and the key is all that stands before it, since how many words a key has depends on its kind.
fn enter<'a>(arguments: &'a [u8]) -> Option<Command<'a>>
    ensures { EnterOf arguments.now result }
{
    let (key, last) = cut_last(arguments, b' ')?;
    let mark = mark(last)?;
    Some(Command::Enter { key, mark })
}

// The command that a word and its arguments make, if they make one.
fn known<'a>(word: &[u8], arguments: &'a [u8]) -> Option<Command<'a>>
    ensures { Known word.now arguments.now result }
{
    match word {
        b"lend" => lend(arguments),
        b"enter" => enter(arguments),
        b"find" => Some(Command::Find { key: arguments }),
        _ => None,
    }
}

// The command that a line without arguments makes, if it makes one.
fn alone<'a>(line: &[u8]) -> Option<Command<'a>>
    ensures { Alone line.now result }
{
    match line {
        b"rows" => Some(Command::Rows),
        b"clashes" => Some(Command::Clashes),
        b"count" => Some(Command::Count),
        b"back" => Some(Command::Back),
        _ => None,
    }
}

// What a line says.
pub fn parse<'a>(line: &'a [u8]) -> Command<'a>
    ensures { Parsed line.now result }
{
    match line {
        [] | [b'#', ..] => Command::Blank,
        _ => match cut(line, b' ') {
            Some((word, arguments)) => {
                known(word, arguments).unwrap_or(Command::Unknown { word })
            }
            None => alone(line).unwrap_or(Command::Unknown { word: line }),
        },
    }
}
