// A trial that every register passes with every kind of key: enter, find, take back, find.
ghost use Rattle.std.specs.Prelude.{◌≡◌, length, ◌≢◌};
ghost use Rattle.registers.specs.Entries.{marked, entering, entered};
ghost use Rattle.registers.specs.Keys.{clash_code};
ghost use Rattle.registers.specs.Lent.{Beyond};
ghost use Rattle.registers.specs.Shelves.{empty_table, empty_tree};
ghost use Rattle.registers.specs.Trials.{undone, Passes};
ghost use Rattle.rows.specs.Code.{code as row_code};

use crate::clash::ClashKey;
use crate::entered::Entered;
use crate::fault::RegisterFault;
use crate::key::Key;
use crate::rank::cell::Cell;
use crate::rank::rank_table::RankTable;
use crate::register::Register;
use crate::tree::node::Node;
use crate::tree::search_tree::SearchTree;
use rows::row::Row;

#[derive(Clone, Copy)]
pub struct Trial {
    // what entering the key answered
    pub entered: Result<Entered, RegisterFault>,
    // its mark, found right after that
    pub found: Option<u32>,
    // its mark once an added entry is taken back
    pub left: Option<u32>,
}

// Takes back what an enter has added.
fn undo<K: Key, R: Register<K>>(register: &mut R, entered: Result<Entered, RegisterFault>)
    ensures { R.Register.shelf register.new ≡ undone entered (R.Register.shelf register.old) }
{
    if let Ok(Entered::Added) = entered {
        let _ = register.take_back();
    }
}

pub fn try_key<K: Key, R: Register<K>>(register: &mut R, key: &K, mark: u32) -> Trial
    ensures passes { Passes (R.Register.shelf register.old) (K.Key.code key.now) mark result }
    ensures others { (other : K) → (other ≢ key.now) → marked (K.Key.code other) (entered result.entered (record { code = K.Key.code key.now; mark = mark }) (R.Register.shelf register.old)).entries ≡ marked (K.Key.code other) (R.Register.shelf register.old).entries }
    ensures after { R.Register.shelf register.new ≡ R.Register.shelf register.old }
{
    let entered = register.enter(key, mark);
    let found = register.find(key);
    undo(register, entered);
    let left = register.find(key);
    Trial {
        entered,
        found,
        left,
    }
}

// Both kinds of key, each with a register of its own.
pub fn try_both<A: Register<Row>, B: Register<ClashKey>>(
    rows: &mut A,
    clashes: &mut B,
    row: &Row,
    clash: &ClashKey,
    mark: u32,
) -> (Trial, Trial)
    ensures row { Passes (A.Register.shelf rows.old) (row_code row.now.bells) mark result.0 }
    ensures clash { Passes (B.Register.shelf clashes.old) (clash_code clash.now) mark result.1 }
    ensures after { (A.Register.shelf rows.new ≡ A.Register.shelf rows.old) × (B.Register.shelf clashes.new ≡ B.Register.shelf clashes.old) }
{
    (try_key(rows, row, mark), try_key(clashes, clash, mark))
}

// Both kinds of key on search trees. This and `try_tables`, and the two that lend, differ in the register alone: a trait over what a register is made of would be longer than they are.
pub fn try_trees(
    nodes: &mut [Node],
    more_nodes: &mut [Node],
    row: &Row,
    clash: &ClashKey,
    mark: u32,
) -> (Trial, Trial)
    ensures row { Passes (empty_tree (length nodes.old)) (row_code row.now.bells) mark result.0 }
    ensures clash { Passes (empty_tree (length more_nodes.old)) (clash_code clash.now) mark result.1 }
{
    let mut row_tree = SearchTree::new(nodes);
    let mut clash_tree = SearchTree::new(more_nodes);
    try_both(&mut row_tree, &mut clash_tree, row, clash, mark)
}

// Both kinds of key on rank tables.
pub fn try_tables(
    cells: &mut [Cell],
    more_cells: &mut [Cell],
    row: &Row,
    clash: &ClashKey,
    mark: u32,
) -> (Trial, Trial)
    ensures row { Passes (empty_table (length cells.old)) (row_code row.now.bells) mark result.0 }
    ensures clash { Passes (empty_table (length more_cells.old)) (clash_code clash.now) mark result.1 }
{
    let mut row_table = RankTable::new(cells);
    let mut clash_table = RankTable::new(more_cells);
    try_both(&mut row_table, &mut clash_table, row, clash, mark)
}

// One entry in a tree that is then let go: its owner has the nodes back, those beyond use as they were.
pub fn lend_nodes(nodes: &mut [Node], row: &Row, mark: u32) -> Result<Entered, RegisterFault>
    ensures answer { result ≡ entering (empty_tree (length nodes.old)) (row_code row.now.bells) }
    ensures beyond { Beyond nodes.old nodes.new }
{
    SearchTree::new(nodes).enter(row, mark)
}

// The same in a rank table.
pub fn lend_cells(cells: &mut [Cell], row: &Row, mark: u32) -> Result<Entered, RegisterFault>
    ensures answer { result ≡ entering (empty_table (length cells.old)) (row_code row.now.bells) }
    ensures beyond { Beyond cells.old cells.new }
{
    RankTable::new(cells).enter(row, mark)
}
