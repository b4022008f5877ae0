// The lines of a sheet, its words and its numbers.
ghost use Rattle.std.specs.Prelude.{◌≡◌, ◌-◌, ◌^◌, min, true, false, length, MatchOption};
ghost use Rattle.std.specs.Iterator.{at_most};
ghost use Rattle.sheets.specs.Words.{value, digits, CutAt, CutLast, LineOf};

// What stands before the first byte of this value and what stands behind it, if there is one.
pub fn cut<'a>(bytes: &'a [u8], byte: u8) -> Option<(&'a [u8], &'a [u8])>
    ensures { CutAt byte bytes.now result }
{
    let at = bytes.iter().position(|b| *b == byte)?;
    Some((&bytes[..at], &bytes[at + 1..]))
}

// What stands before the last byte of this value and what stands behind it, if there is one.
pub fn cut_last<'a>(bytes: &'a [u8], byte: u8) -> Option<(&'a [u8], &'a [u8])>
    ensures { CutLast byte bytes.now result }
{
    let at = bytes.iter().rposition(|b| *b == byte)?;
    Some((&bytes[..at], &bytes[at + 1..]))
}

// The lines of a sheet in order, without their ends.
#[derive(Drop)]
pub struct Lines<'a> {
    // the lines that are left
    pub rest: &'a [u8],
}

impl<'a> Lines<'a> {
    pub fn of(sheet: &'a [u8]) -> Lines<'a>
        ensures { result.rest.now ≡ sheet.now }
    {
        Lines { rest: sheet }
    }
}

impl<'a> Iterator for Lines<'a> {
    type Item = &'a [u8];

    ghost next_gives = { λ s line t. LineOf s.rest.now line t.rest.now };

    ghost remaining = { λ s. at_most (length s.rest.now) };

    fn next(&mut self) -> Option<&'a [u8]> {
        if self.rest.is_empty() {
            return None;
        }
        let (line, rest) = cut(self.rest, b'\n').unwrap_or((self.rest, &[]));
        self.rest = rest;
        Some(line)
    }
}

// The number that these decimal digits write; one too large for the type counts as the largest.
pub fn number(text: &[u8]) -> Option<usize>
    ensures { MatchOption result (digits text.now ≡ false) (λ n. (digits text.now ≡ true) × (n ≡ min (value text.now) (2 ^ 64 - 1))) }
{
    if text.is_empty() {
        return None;
    }
    let mut number: usize = 0;
    for byte in text {
        if !byte.is_ascii_digit() {
            return None;
        }
        number = number
            .saturating_mul(10)
            .saturating_add(usize::from(*byte - b'0'));
    }
    Some(number)
}
