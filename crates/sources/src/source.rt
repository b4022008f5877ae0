// What a calling source means: a list of form numbers, and how many of them were given.
ghost use Rattle.std.specs.Prelude.{◌≡◌, ℕ, List};
ghost use Rattle.sources.specs.Giving.{moved};
ghost use Rattle.std.specs.List.{slice_get};

pub trait Source {
    ghost list: { Self → List ℕ };

    ghost given: { Self → ℕ };

    // The following number; none where the list is finished, which moves nothing.
    fn next(&mut self) -> Option<u8>
        ensures answer { result ≡ slice_get (list self.old) (given self.old) }
        ensures given { given self.new ≡ moved result (given self.old) }
        ensures list { list self.new ≡ list self.old };

    // Back to none given.
    fn rewind(&mut self)
        ensures given { given self.new ≡ 0 }
        ensures list { list self.new ≡ list self.old };
}
