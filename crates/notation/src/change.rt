// A change: of each of the twelve places, whether it is made. Every change that there is can be rung.
ghost use Rattle.notation.specs.Changes.{can_ring};
ghost use Rattle.std.specs.Prelude.{◌≡◌, true, length};

#[derive(Clone, Copy)]
pub struct Change {
    pub made: [bool; 12],
    ghost twelve: { length made ≡ 12 },
    ghost rings: { can_ring made ≡ true },
}
