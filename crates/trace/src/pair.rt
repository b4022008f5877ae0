// Two registers side by side, to which the same calls are made.
ghost use Rattle.registers.specs.Entries.{marked, entering, entered, taking, taken};
ghost use Rattle.registers.specs.Shelves.{tree_shelf, table_shelf, empty_tree, empty_table};
ghost use Rattle.std.specs.Prelude.{◌≡◌, length, vec_len};

use crate::answer::{Answer, Both, Room};
use crate::memory::Memory;
use registers::entered::Entered;
use registers::fault::RegisterFault;
use registers::key::Key;
use registers::rank::rank_table::RankTable;
use registers::register::Register;
use registers::tree::search_tree::SearchTree;

#[derive(Drop)]
pub struct Pair<T, R> {
    pub tree: T,
    pub rank: R,
}

impl<'m, K: Key> Pair<SearchTree<'m, K>, RankTable<'m, K>> {
    // A fresh search tree and a fresh rank table over the lent memory.
    pub fn over(memory: &'m mut Memory) -> Pair<SearchTree<'m, K>, RankTable<'m, K>>
        ensures tree { tree_shelf result.tree ≡ empty_tree (vec_len memory.old.nodes) }
        ensures rank { table_shelf result.rank ≡ empty_table (vec_len memory.old.cells) }
    {
        Pair {
            tree: SearchTree::new(&mut memory.nodes),
            rank: RankTable::new(&mut memory.cells),
        }
    }
}

// Each answer is the one that the register's shelf gives, whichever register it is.
impl<T, R> Pair<T, R> {
    pub fn room<K: Key>(&self) -> Both<Room>
    where
        T: Register<K>,
        R: Register<K>,
        ensures tree { (result.tree.reach ≡ (T.Register.shelf self.now.tree).reach) × (result.tree.capacity ≡ (T.Register.shelf self.now.tree).capacity) }
        ensures rank { (result.rank.reach ≡ (R.Register.shelf self.now.rank).reach) × (result.rank.capacity ≡ (R.Register.shelf self.now.rank).capacity) }
    {
        Both {
            tree: Room {
                reach: self.tree.reach(),
                capacity: self.tree.capacity(),
            },
            rank: Room {
                reach: self.rank.reach(),
                capacity: self.rank.capacity(),
            },
        }
    }

    pub fn enter<K: Key>(
        &mut self,
        key: &K,
        mark: u32,
    ) -> Both<Answer<Result<Entered, RegisterFault>>>
    where
        T: Register<K>,
        R: Register<K>,
        ensures tree { result.tree.0 ≡ entering (T.Register.shelf self.old.tree) (K.Key.code key.now) }
        ensures rank { result.rank.0 ≡ entering (R.Register.shelf self.old.rank) (K.Key.code key.now) }
        ensures tree_after { T.Register.shelf self.new.tree ≡ entered result.tree.0 (record { code = K.Key.code key.now; mark = mark }) (T.Register.shelf self.old.tree) }
        ensures rank_after { R.Register.shelf self.new.rank ≡ entered result.rank.0 (record { code = K.Key.code key.now; mark = mark }) (R.Register.shelf self.old.rank) }
    {
        Both {
            tree: Answer(self.tree.enter(key, mark)),
            rank: Answer(self.rank.enter(key, mark)),
        }
    }

    pub fn find<K: Key>(&self, key: &K) -> Both<Answer<Option<u32>>>
    where
        T: Register<K>,
        R: Register<K>,
        ensures tree { result.tree.0 ≡ marked (K.Key.code key.now) (T.Register.shelf self.now.tree).entries }
        ensures rank { result.rank.0 ≡ marked (K.Key.code key.now) (R.Register.shelf self.now.rank).entries }
    {
        Both {
            tree: Answer(self.tree.find(key)),
            rank: Answer(self.rank.find(key)),
        }
    }

    pub fn count<K: Key>(&self) -> Both<usize>
    where
        T: Register<K>,
        R: Register<K>,
        ensures tree { result.tree ≡ length (T.Register.shelf self.now.tree).entries }
        ensures rank { result.rank ≡ length (R.Register.shelf self.now.rank).entries }
    {
        Both {
            tree: self.tree.count(),
            rank: self.rank.count(),
        }
    }

    pub fn take_back<K: Key>(&mut self) -> Both<Answer<Result<u32, RegisterFault>>>
    where
        T: Register<K>,
        R: Register<K>,
        ensures tree { result.tree.0 ≡ taking (T.Register.shelf self.old.tree) }
        ensures rank { result.rank.0 ≡ taking (R.Register.shelf self.old.rank) }
        ensures tree_after { T.Register.shelf self.new.tree ≡ taken (T.Register.shelf self.old.tree) }
        ensures rank_after { R.Register.shelf self.new.rank ≡ taken (R.Register.shelf self.old.rank) }
    {
        Both {
            tree: Answer(self.tree.take_back()),
            rank: Answer(self.rank.take_back()),
        }
    }
}
