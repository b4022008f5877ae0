// What is read of a notation so far.
ghost use Rattle.std.specs.Prelude.{◌≤◌, IfSome};
ghost use Rattle.std.proofs.Props.{props};

use crate::change::Change;
use crate::changes::Changes;
use crate::fault::Fault;
use crate::token::Token;
use rows::stage::Stage;

// What stands directly before the next token.
#[derive(Clone, Copy)]
pub enum Seen {
    // nothing of this block
    Fresh,
    // the sign of the block
    Signed,
    Crossed,
    Ran,
    Pointed,
}

#[derive(Clone, Copy)]
pub struct Draft {
    pub stage: Stage,
    // the changes read so far, unless there are more than 64
    pub changes: Option<Changes>,
    // how many of them stand before this block
    pub block: usize,
    // the first byte of this block
    pub from: usize,
    // whether this block is followed by its changes except the last, backwards
    pub doubles: bool,
    pub seen: Seen,
    ghost begun: { IfSome changes (λ c. block ≤ c.count) } by { Prim.hlevel props },
}

impl Draft {
    ghost use Rattle.std.specs.Prelude.{◌≡◌, ℕ, ◌-◌, ◌^◌, ◌<◌, map, OnOk};
    ghost use Rattle.notation.specs.Drafts.{Drafted, Steps, Answers, stepped, seen_behind, position, finished};
    ghost use Rattle.notation.specs.Reading.{State, start, add, close};
    ghost use Rattle.notation.specs.declared.draft.Seen.TheVariants.{Fresh};
    ghost use Rattle.rows.specs.Text.{named};

    pub(crate) fn new(stage: Stage) -> Draft
        ensures drafted { Drafted stage.bells result start }
        ensures seen { result.seen ≡ Fresh }
    {
        Draft {
            stage,
            changes: Some(Changes::empty()),
            block: 0,
            from: 0,
            doubles: false,
            seen: Seen::Fresh,
        }
    }

    // Adds the change with these places written, which begins at this byte.
    fn add(&mut self, digits: &[u8], at: usize) -> Result<(), Fault>
        ensures { (n : ℕ) (st : State) → Drafted n self.old st → Steps n (add n at (map named digits.now) st) result self.new }
    {
        let change = Change::written(self.stage, digits, at)?;
        if let Some(changes) = &mut self.changes
            && changes.push(change).is_err()
        {
            self.changes = None;
        }
        Ok(())
    }

    // This block is whole, and the next begins at this byte.
    fn close(&mut self, next: usize) -> Result<(), Fault>
        ensures { (n : ℕ) (st : State) → Drafted n self.old st → Steps n (close next st) result self.new }
    {
        let changes = self.changes.as_mut().ok_or(Fault::Many(self.from))?;
        if self.doubles {
            changes.double(self.block).ok_or(Fault::Many(self.from))?;
        }
        self.block = changes.count;
        self.from = next;
        self.doubles = false;
        Ok(())
    }

    // Takes the next token, if a notation goes on with it here.
    pub(crate) fn take(&mut self, token: Token) -> Result<(), Fault>
        requires { position token < 2 ^ 64 - 1 }
        ensures steps { (n : ℕ) (st : State) → Drafted n self.old st → Steps n (stepped n token.entry self.old.seen st) result self.new }
        ensures seen { OnOk result (self.new.seen ≡ seen_behind token.entry self.old.seen) }
    {
        self.seen = match (token, self.seen) {
            (
                Token::Run { digits, at },
                Seen::Fresh | Seen::Signed | Seen::Crossed | Seen::Pointed,
            ) => {
                self.add(digits, at)?;
                Seen::Ran
            }
            (Token::Cross { at }, Seen::Fresh | Seen::Signed | Seen::Crossed | Seen::Ran) => {
                self.add(&[], at)?;
                Seen::Crossed
            }
            (Token::Point { .. }, Seen::Ran) => Seen::Pointed,
            (Token::Comma { at }, Seen::Crossed | Seen::Ran) => {
                self.close(at + 1)?;
                Seen::Fresh
            }
            (Token::And { .. } | Token::Plus { .. }, Seen::Fresh) => {
                self.doubles = matches!(token, Token::And { .. });
                Seen::Signed
            }
            _ => return Err(Fault::Byte(token.at())),
        };
        Ok(())
    }

    // The text ends here.
    pub(crate) fn finish(mut self, at: usize) -> Result<Changes, Fault>
        ensures { (n : ℕ) (st : State) → Drafted n self st → Answers n (finished at self.seen st) result }
    {
        match self.seen {
            Seen::Fresh | Seen::Signed | Seen::Pointed => Err(Fault::Early(at)),
            Seen::Crossed | Seen::Ran => {
                self.close(at)?;
                // a block that closes has its changes, so this is no fault
                self.changes.ok_or(Fault::Many(at))
            }
        }
    }
}
