// What a register means: a shelf, which holds a list of entries in the order of entering.
ghost use Rattle.std.specs.Prelude.{◌≡◌, length};
ghost use Rattle.registers.specs.Entries.{Shelf, NoCodeTwice, marked, entering, entered, taking, taken};

use crate::entered::Entered;
use crate::fault::RegisterFault;
use crate::key::Key;

pub trait Register<K: Key> {
    ghost shelf: { Self → Shelf };

    // Every code that can be entered is below the reach.
    fn reach(&self) -> u64
        ensures { result ≡ (shelf self.now).reach };

    // How many entries there is room for.
    fn capacity(&self) -> usize
        ensures { result ≡ (shelf self.now).capacity };

    fn enter(&mut self, key: &K, mark: u32) -> Result<Entered, RegisterFault>
        ensures answer { result ≡ entering (shelf self.old) (K.Key.code key.now) }
        ensures after { shelf self.new ≡ entered result (record { code = K.Key.code key.now; mark = mark }) (shelf self.old) };

    fn find(&self, key: &K) -> Option<u32>
        ensures { result ≡ marked (K.Key.code key.now) (shelf self.now).entries };

    fn count(&self) -> usize
        ensures { result ≡ length (shelf self.now).entries };

    fn take_back(&mut self) -> Result<u32, RegisterFault>
        ensures answer { result ≡ taking (shelf self.old) }
        ensures after { shelf self.new ≡ taken (shelf self.old) };

    // No code stands twice.
    ghost apart: { (register : Self) → NoCodeTwice (shelf register).entries };
}
