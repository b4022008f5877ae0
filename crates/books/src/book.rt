// What a book means: its forms, its limit, and the leads that stand.
ghost use Rattle.std.specs.Prelude.{◌≡◌, ℕ, List, length};
ghost use Rattle.books.specs.Leads.{Shape, Lead};
ghost use Rattle.books.specs.Ringing.{Moves, Rings, Takes, Judges};

use crate::call::Certificate;
use crate::fault::{RingFault, TakeBackFault, VerdictFault};

pub trait Book {
    // apart from the limit, since most of the law speaks of the forms alone
    ghost forms: { Self → List Shape };

    ghost limit: { Self → ℕ };

    ghost leads: { Self → List Lead };

    // that nothing but the book has touched its register
    ghost kept: { Self → Type 0 };

    // How many leads stand.
    fn count(&self) -> usize
        ensures { result ≡ length (leads self.now) };

    fn ring(&mut self, form: u8) -> Result<usize, RingFault>
        ensures still { (forms self.new ≡ forms self.old) × (limit self.new ≡ limit self.old) }
        ensures moves { Moves (forms self.old) (limit self.old) (leads self.old) form result (leads self.new) }
        ensures law { kept self.old → kept self.new × Rings (forms self.old) (limit self.old) (leads self.old) form result };

    fn take_back(&mut self) -> Result<u8, TakeBackFault>
        ensures still { (forms self.new ≡ forms self.old) × (limit self.new ≡ limit self.old) }
        ensures takes { Takes (leads self.old) result (leads self.new) }
        ensures law { kept self.old → kept self.new };

    fn verdict(&self, claimed: usize) -> Result<Certificate, VerdictFault>
        ensures law { kept self.now → Judges (forms self.now) (leads self.now) claimed result };
}
