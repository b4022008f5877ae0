// A list in the caller's bytes.
ghost use Rattle.std.specs.Prelude.{◌≡◌, ℕ};

use crate::source::Source;

#[derive(Clone, Copy)]
pub struct Listed<'a> {
    bytes: &'a [u8],
    given: usize,
}

impl<'a> Listed<'a> {
    pub fn new(bytes: &'a [u8]) -> Listed<'a>
        ensures list { result.bytes.now ≡ bytes.now }
        ensures given { result.given ≡ 0 }
    {
        Listed { bytes, given: 0 }
    }
}

impl<'a> Source for Listed<'a> {
    ghost list = { λ s. s.bytes.now };

    ghost given = { λ s. s.given };

    fn next(&mut self) -> Option<u8> {
        let number = *self.bytes.get(self.given)?;
        self.given += 1;
        Some(number)
    }

    fn rewind(&mut self) {
        self.given = 0;
    }
}
