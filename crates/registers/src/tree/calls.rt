// The calls of the search tree.
#![tactic(auto, unfolding(crate::specs::Shelves::tree_shelf))]

ghost use Rattle.std.specs.Prelude.{◌≡◌, ◌<◌, length, None, Some, Ok, MatchResult};
ghost use Rattle.registers.specs.Entries.{marked, entering, entered, taking, taken};
ghost use Rattle.registers.specs.Lent.{used, Kept};
ghost use Rattle.registers.specs.Nodes.{Ends};
ghost use Rattle.registers.specs.Shelves.{empty_tree, tree_shelf, tree_apart};
ghost use Rattle.registers.specs.declared.entered.Entered.TheVariants.{Added};

use crate::entered::Entered;
use crate::fault::RegisterFault;
use crate::key::Key;
use crate::lent::used;
use crate::register::Register;
use crate::tree::node::Node;
use crate::tree::search::search;
use crate::tree::search_tree::SearchTree;
use std::marker::PhantomData;

// The codes of all clash keys are below 256 × 12!.
const REACH: u64 = 122_624_409_600;

impl<'a, K> SearchTree<'a, K> {
    // An empty tree; no node is touched.
    pub fn new(nodes: &'a mut [Node]) -> SearchTree<'a, K>
        ensures empty { tree_shelf result ≡ empty_tree (length nodes.old) }
        ensures lent { result.nodes ≡ nodes.entry }
    {
        SearchTree {
            nodes,
            count: 0,
            keys: PhantomData,
        }
    }

    // The mark of the code, if it is held; or else the node below which it is to hang, none for the first entry.
    fn seek(&self, code: u64) -> Result<u32, Option<usize>>
        ensures { MatchResult result (λ mark. marked code (tree_shelf self.now).entries ≡ Some mark) (λ above. (marked code (tree_shelf self.now).entries ≡ None) × Ends self.now.nodes.now self.now.count code above) }
    {
        search(&self.nodes[..self.count], code)
    }

    // One entry more, below the node at which the search for its code ended.
    fn hang(&mut self, above: Option<usize>, code: u64, mark: u32)
        requires room { self.old.count < (tree_shelf self.old).capacity }
        requires place { Ends self.old.nodes.now self.old.count code above }
        ensures after { tree_shelf self.new ≡ entered (Ok Added) (record { code = code; mark = mark }) (tree_shelf self.old) }
        ensures lent { Kept self.old.nodes self.new.nodes }
    {
        let count = self.count;
        self.nodes[count] = Node {
            code,
            mark,
            above: above.unwrap_or(0) as u32,
            low: None,
            high: None,
        };
        if let Some(above) = above {
            // an element is lent for writing through a slice in a variable
            let nodes = &mut *self.nodes;
            nodes[above].link(code, count as u32);
        }
        self.count = count + 1;
    }
}

impl<'a, K: Key> Register<K> for SearchTree<'a, K> {
    ghost shelf = { tree_shelf };

    ghost apart = { tree_apart };

    #[tactic(auto, unfolding(crate::specs::Shelves::tree_shelf, rows::specs::Code::fact))]
    fn reach(&self) -> u64 {
        REACH
    }

    fn capacity(&self) -> usize {
        used(self.nodes.len())
    }

    fn enter(&mut self, key: &K, mark: u32) -> Result<Entered, RegisterFault>
        ensures answer { result ≡ entering (tree_shelf self.old) (K.Key.code key.now) }
        ensures after { tree_shelf self.new ≡ entered result (record { code = K.Key.code key.now; mark = mark }) (tree_shelf self.old) }
        ensures lent { Kept self.old.nodes self.new.nodes }
    {
        let code = key.code();
        if code >= self.reach() {
            return Err(RegisterFault::Reach);
        }
        match self.seek(code) {
            Ok(held) => Ok(Entered::Held(held)),
            Err(_) if self.count >= self.capacity() => Err(RegisterFault::Full),
            Err(above) => {
                self.hang(above, code, mark);
                Ok(Entered::Added)
            }
        }
    }

    fn find(&self, key: &K) -> Option<u32> {
        self.seek(key.code()).ok()
    }

    fn count(&self) -> usize {
        self.count
    }

    fn take_back(&mut self) -> Result<u32, RegisterFault>
        ensures answer { result ≡ taking (tree_shelf self.old) }
        ensures after { tree_shelf self.new ≡ taken (tree_shelf self.old) }
        ensures lent { self.new.nodes ≡ self.old.nodes }
    {
        let last = self.count.checked_sub(1).ok_or(RegisterFault::Empty)?;
        self.count = last;
        Ok(self.nodes[last].mark)
    }
}
