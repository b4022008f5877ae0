// Answering a script: lent memory, and sections of calls on two registers over it.
ghost use Rattle.std.specs.Prelude.{◌≡◌, IfOk};
ghost use Rattle.trace.specs.Script.{ComesNext};

use crate::command::{Command, parse};
use crate::memory::Memory;
use crate::pair::Pair;
use crate::written::{NoKey, Written};
use registers::clash::ClashKey;
use registers::rank::rank_table::RankTable;
use registers::tree::search_tree::SearchTree;
use rows::row::Row;
use sheets::print::not_understood;
use sheets::words::Lines;
use std::alloc::Global;
use std::fmt::Display;
use std::io;
use std::io::{BufWriter, Stdout, Write};

// More than this is not lent: it is well beyond what a register uses.
const MOST: usize = 2_000_000;

// The answers about a key, or why the text was none.
fn print_answers<A: Display + Drop>(
    word: &str,
    answers: Result<A, NoKey>,
    out: &mut BufWriter<Stdout>,
) -> io::Result<()> {
    match answers {
        Ok(answers) => writeln!(out, "{word}: {answers}"),
        Err(fault) => writeln!(out, "{word}: {fault}"),
    }
}

fn no_registers(word: &str, out: &mut BufWriter<Stdout>) -> io::Result<()> {
    writeln!(out, "{word}: no registers yet")
}

// A script that is being answered.
#[derive(Drop)]
pub struct Script<'s, 'o> {
    memory: Memory,
    // the lines that are not answered yet
    pub lines: Lines<'s>,
    out: &'o mut BufWriter<Stdout>,
}

impl<'s, 'o> Script<'s, 'o> {
    pub fn of(heap: Global, sheet: &'s [u8], out: &'o mut BufWriter<Stdout>) -> Script<'s, 'o>
        ensures { result.lines.rest.now ≡ sheet.now }
    {
        Script {
            memory: Memory::new(heap),
            lines: Lines::of(sheet),
            out,
        }
    }

    fn lend(&mut self, nodes: usize, cells: usize) -> io::Result<()>
        ensures { self.new.lines.rest.now ≡ self.old.lines.rest.now }
    {
        if nodes > MOST || cells > MOST {
            return writeln!(self.out, "lend: more than {MOST}");
        }
        self.memory.lend(nodes as u32, cells as u32)?;
        writeln!(self.out, "lend: {nodes} nodes, {cells} cells")
    }

    // The calls on two fresh registers with this kind of key, up to the command that ends the loan of the memory, which is handed back.
    fn section<K: Written + Drop>(&mut self, word: &str) -> io::Result<Option<Command<'s>>>
        ensures { IfOk result (λ next. ComesNext self.old.lines.rest.now next self.new.lines.rest.now) }
    {
        let Script { memory, lines, out } = self;
        let mut pair = Pair::<SearchTree<'_, K>, RankTable<'_, K>>::over(memory);
        writeln!(out, "{word}: {}", pair.room::<K>())?;
        while let Some(line) = lines.next() {
            match parse(line) {
                Command::Blank => {}
                Command::Enter { key, mark } => {
                    let answers = K::read(key).map(|key| pair.enter(&key, mark));
                    print_answers("enter", answers, out)?;
                }
                Command::Find { key } => {
                    let answers = K::read(key).map(|key| pair.find(&key));
                    print_answers("find", answers, out)?;
                }
                Command::Count => writeln!(out, "count: {}", pair.count::<K>())?,
                Command::Back => writeln!(out, "back: {}", pair.take_back::<K>())?,
                Command::Unknown { word } => not_understood(word, out)?,
                end @ (Command::Lend { .. } | Command::Rows | Command::Clashes) => {
                    return Ok(Some(end));
                }
            }
        }
        Ok(None)
    }

    // Answers a command outside a section, or the section that it begins, and hands back the command that comes next.
    fn part(&mut self, command: Command<'s>) -> io::Result<Option<Command<'s>>>
        ensures { IfOk result (λ next. ComesNext self.old.lines.rest.now next self.new.lines.rest.now) }
    {
        match command {
            Command::Blank => {}
            Command::Lend { nodes, cells } => self.lend(nodes, cells)?,
            Command::Rows => return self.section::<Row>("rows"),
            Command::Clashes => return self.section::<ClashKey>("clashes"),
            Command::Enter { .. } => no_registers("enter", self.out)?,
            Command::Find { .. } => no_registers("find", self.out)?,
            Command::Count => no_registers("count", self.out)?,
            Command::Back => no_registers("back", self.out)?,
            Command::Unknown { word } => not_understood(word, self.out)?,
        }
        Ok(self.lines.next().map(parse))
    }

    pub fn answer(&mut self) -> io::Result<()> {
        let mut next = self.lines.next().map(parse);
        while let Some(command) = next {
            next = self.part(command)?;
        }
        Ok(())
    }
}
