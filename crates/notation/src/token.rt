// The tokens of a notation, each with the position of its first byte.
ghost use Rattle.std.specs.Prelude.{◌≡◌, ℕ, ◌-◌, ◌<◌, ◌≤◌, length, take, All, slice_index};
ghost use Rattle.std.specs.Iterator.{at_most};
ghost use Rattle.notation.specs.Drafts.{position};
ghost use Rattle.notation.specs.Tokens.{Next};
ghost use Rattle.rows.specs.Text.{named};

use rows::text::bell_named;

#[derive(Clone, Copy)]
pub enum Token<'a> {
    // a run of bell characters, with no bell character directly behind it
    Run { digits: &'a [u8], at: usize },
    Cross { at: usize },
    Point { at: usize },
    Comma { at: usize },
    And { at: usize },
    Plus { at: usize },
    // a byte that stands in no notation
    Other { at: usize },
}

impl<'a> Token<'a> {
    // The position of its first byte.
    pub fn at(&self) -> usize
        ensures { result ≡ position self.now }
    {
        match self {
            Token::Run { at, .. }
            | Token::Cross { at }
            | Token::Point { at }
            | Token::Comma { at }
            | Token::And { at }
            | Token::Plus { at }
            | Token::Other { at } => *at,
        }
    }
}

// The bell characters that a text begins with.
fn run(text: &[u8]) -> &[u8]
    ensures front { result.now ≡ take (length result.now) text.now }
    ensures bells { All (λ b. 0 < named b) result.now }
    ensures stops { named (slice_index text.now (length result.now)) ≡ 0 }
{
    let end = text.iter().position(|byte| bell_named(*byte).is_none());
    &text[..end.unwrap_or(text.len())]
}

#[derive(Clone, Copy)]
pub struct Tokens<'a> {
    pub text: &'a [u8],
    pub at: usize,
}

impl<'a> Tokens<'a> {
    // The tokens of this text.
    pub fn of(text: &'a [u8]) -> Tokens<'a>
        ensures text { result.text.now ≡ text.now }
        ensures at { result.at ≡ 0 }
    {
        Tokens { text, at: 0 }
    }
}

impl<'a> Iterator for Tokens<'a> {
    type Item = Token<'a>;

    ghost next_gives = { λ s r t. (t.text.now ≡ s.text.now) × Next s.text.now s.at t.at r };

    ghost remaining = { λ s. at_most (length s.text.now - s.at) };

    // The next token, or none at the end of the text.
    fn next(&mut self) -> Option<Token<'a>> {
        let at = self.at;
        let byte = *self.text.get(at)?;
        self.at = at + 1;
        Some(match byte {
            b'-' | b'x' => Token::Cross { at },
            b'.' => Token::Point { at },
            b',' => Token::Comma { at },
            b'&' => Token::And { at },
            b'+' => Token::Plus { at },
            _ => match run(&self.text[at..]) {
                [] => Token::Other { at },
                digits => {
                    self.at = at + digits.len();
                    Token::Run { digits, at }
                }
            },
        })
    }
}
