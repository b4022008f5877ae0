// How much of the lent memory a register uses.
ghost use Rattle.registers.specs.Lent.{used};
ghost use Rattle.std.specs.Prelude.{◌≡◌};

// What is lent beyond this many places stays unused.
const MOST: usize = 1_048_576;

pub(crate) fn used(lent: usize) -> usize
    ensures { result ≡ used lent }
{
    lent.min(MOST)
}
