// One list after another.
ghost use Rattle.std.specs.Prelude.{◌≡◌, ℕ, ◌++◌};
ghost use Rattle.sources.specs.Giving.{given_of_join};

use crate::source::Source;

#[derive(Drop)]
pub struct Join<A, B> {
    first: A,
    second: B,
    // whether the first list is finished and the second begun; both sources stay, to be rewound
    turned: bool,
}

impl<A: Source, B: Source> Join<A, B> {
    // Rewinds both sources.
    pub fn new(mut first: A, mut second: B) -> Join<A, B>
        ensures list { A.Source.list result.first ++ B.Source.list result.second ≡ A.Source.list first ++ B.Source.list second }
        ensures given { (given_of_join result.turned (A.Source.list result.first) (A.Source.given result.first) (B.Source.given result.second) ≡ 0) × (A.Source.given result.first ≡ 0) × (B.Source.given result.second ≡ 0) }
    {
        first.rewind();
        second.rewind();
        Join {
            first,
            second,
            turned: false,
        }
    }
}

impl<A: Source, B: Source> Source for Join<A, B> {
    ghost list = { λ s. A.Source.list s.first ++ B.Source.list s.second };

    ghost given = { λ s. given_of_join s.turned (A.Source.list s.first) (A.Source.given s.first) (B.Source.given s.second) };

    fn next(&mut self) -> Option<u8> {
        if self.turned {
            return self.second.next();
        }
        if let Some(number) = self.first.next() {
            return Some(number);
        }
        self.turned = true;
        self.second.rewind();
        self.second.next()
    }

    fn rewind(&mut self) {
        self.turned = false;
        self.first.rewind();
        self.second.rewind();
    }
}
