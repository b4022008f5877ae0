// The calls of the rank table.
#![tactic(auto, unfolding(crate::specs::Shelves::table_shelf))]

ghost use Rattle.std.specs.Prelude.{◌≡◌, ◌<◌, ◌≤◌, length, None, Ok, MatchOption};
ghost use Rattle.registers.specs.Cells.{cell_at, settled, end, previous};
ghost use Rattle.registers.specs.Entries.{marked, entering, entered, taking, taken};
ghost use Rattle.registers.specs.declared.entered.Entered.TheVariants.{Added};
ghost use Rattle.registers.specs.Lent.{used, Kept};
ghost use Rattle.registers.specs.Shelves.{empty_table, table_shelf, table_apart};

use crate::entered::Entered;
use crate::fault::RegisterFault;
use crate::key::Key;
use crate::lent::used;
use crate::rank::cell::{Cell, Last, Link};
use crate::rank::rank_table::RankTable;
use crate::register::Register;
use std::marker::PhantomData;

impl<'a, K> RankTable<'a, K> {
    // An empty table; every cell that it uses is freed.
    pub fn new(cells: &'a mut [Cell]) -> RankTable<'a, K>
        ensures empty { table_shelf result ≡ empty_table (length cells.old) }
        ensures lent { Kept cells.entry result.cells }
    {
        let used = used(cells.len());
        for cell in &mut cells[..used] {
            cell.link = Link::Free;
        }
        RankTable {
            cells,
            last: None,
            keys: PhantomData,
        }
    }

    // How many cells are used: the reach, and the capacity too.
    fn room(&self) -> usize
        ensures { result ≡ (table_shelf self.now).capacity }
    {
        used(self.cells.len())
    }

    // How many entries there are.
    fn number(&self) -> usize
        ensures { result ≡ length (table_shelf self.now).entries }
    {
        self.last.map_or(0, |last| last.count)
    }

    // The cell of a code below the reach; that of the last entry stands in the table itself.
    fn cell(&self, code: u64) -> Option<Cell>
        ensures { MatchOption result ((table_shelf self.now).reach ≤ code) (λ cell. (code < (table_shelf self.now).reach) × (cell ≡ cell_at (settled self.now.cells.now self.now.last) code)) }
    {
        match self.last {
            Some(last) if u64::from(last.code) == code => Some(last.cell),
            _ => self.cells[..self.room()].get(code as usize).copied(),
        }
    }

    // The mark of the code, if it is held.
    fn mark_of(&self, code: u64) -> Option<u32>
        ensures { result ≡ marked code (table_shelf self.now).entries }
    {
        let cell = self.cell(code)?;
        match cell.link {
            Link::Free => None,
            _ => Some(cell.mark),
        }
    }

    // The link that the next entry will have.
    fn end(&self) -> Link
        ensures { result ≡ end self.now.last }
    {
        self.last.map_or(Link::First, |last| Link::After(last.code))
    }

    // Fills the cell of the last entry, which is to be the last no more.
    fn settle(&mut self)
        ensures cells { self.new.cells.now ≡ settled self.old.cells.now self.old.last }
        ensures loan { self.new.cells.ghost_name ≡ self.old.cells.ghost_name }
    {
        if let Some(last) = self.last {
            self.cells[last.code as usize] = last.cell;
        }
    }

    // One entry more; the cell of the one before it is filled.
    fn add(&mut self, code: u32, mark: u32)
        requires code_bound { code < (table_shelf self.old).reach }
        requires room { length (table_shelf self.old).entries < (table_shelf self.old).capacity }
        requires absent { marked code (table_shelf self.old).entries ≡ None }
        ensures after { table_shelf self.new ≡ entered (Ok Added) (record { code = code; mark = mark }) (table_shelf self.old) }
        ensures lent { Kept self.old.cells self.new.cells }
    {
        let link = self.end();
        let count = self.number() + 1;
        self.settle();
        self.last = Some(Last {
            code,
            cell: Cell { mark, link },
            count,
        });
    }

    // The entry before the last one, read from its own cell.
    fn previous(&self) -> Option<Last>
        ensures { result ≡ previous self.now.cells.now self.now.last }
    {
        let last = self.last?;
        match last.cell.link {
            Link::After(code) => Some(Last {
                code,
                cell: self.cells[code as usize],
                count: last.count - 1,
            }),
            _ => None,
        }
    }
}

impl<'a, K: Key> Register<K> for RankTable<'a, K> {
    ghost shelf = { table_shelf };

    ghost apart = { table_apart };

    fn reach(&self) -> u64 {
        self.room() as u64
    }

    fn capacity(&self) -> usize {
        self.room()
    }

    fn enter(&mut self, key: &K, mark: u32) -> Result<Entered, RegisterFault>
        ensures answer { result ≡ entering (table_shelf self.old) (K.Key.code key.now) }
        ensures after { table_shelf self.new ≡ entered result (record { code = K.Key.code key.now; mark = mark }) (table_shelf self.old) }
        ensures lent { Kept self.old.cells self.new.cells }
    {
        let code = key.code();
        if code >= self.reach() {
            return Err(RegisterFault::Reach);
        }
        if let Some(held) = self.mark_of(code) {
            return Ok(Entered::Held(held));
        }
        if self.count() >= self.capacity() {
            return Err(RegisterFault::Full);
        }
        self.add(code as u32, mark);
        Ok(Entered::Added)
    }

    fn find(&self, key: &K) -> Option<u32> {
        self.mark_of(key.code())
    }

    fn count(&self) -> usize {
        self.number()
    }

    fn take_back(&mut self) -> Result<u32, RegisterFault>
        ensures answer { result ≡ taking (table_shelf self.old) }
        ensures after { table_shelf self.new ≡ taken (table_shelf self.old) }
        ensures lent { Kept self.old.cells self.new.cells }
    {
        let last = self.last.ok_or(RegisterFault::Empty)?;
        self.cells[last.code as usize].link = Link::Free;
        self.last = self.previous();
        Ok(last.cell.mark)
    }
}
