// The list of a source, several times over.
ghost use Rattle.std.specs.Prelude.{◌≡◌, ℕ, ◌<◌, ◌≤◌, ◌⊎◌, MatchResult};
ghost use Rattle.sources.specs.Giving.{given_of_parts};
ghost use Rattle.sources.specs.declared.fault.SourceFault.TheVariants.{Times};
ghost use Rattle.std.specs.List.{repeat};

use crate::fault::SourceFault;
use crate::source::Source;
use causes::Returned;

#[derive(Drop)]
pub struct Parts<S> {
    below: S,
    times: u8,
    // how many whole rounds are gone
    round: u8,
}

impl<S: Source> Parts<S> {
    // Rewinds the source; refused where the times are not 1 to 99, and then the source comes back as it was.
    pub fn new(mut below: S, times: u8) -> Result<Parts<S>, Returned<S, SourceFault>>
        ensures list { MatchResult result (λ p. repeat p.times (S.Source.list p.below) ≡ repeat times (S.Source.list below)) (λ e. e.value ≡ below) }
        ensures given { MatchResult result (λ p. (given_of_parts p.times p.round (S.Source.list p.below) (S.Source.given p.below) ≡ 0) × (S.Source.given p.below ≡ 0)) (λ e. e.fault ≡ Times) }
        ensures limits { MatchResult result (λ _. (1 ≤ times) × (times ≤ 99)) (λ _. (times < 1) ⊎ (99 < times)) }
    {
        if !(1..=99).contains(&times) {
            return Err(Returned {
                value: below,
                fault: SourceFault::Times,
            });
        }
        below.rewind();
        Ok(Parts {
            below,
            times,
            round: 0,
        })
    }
}

impl<S: Source> Source for Parts<S> {
    ghost list = { λ s. repeat s.times (S.Source.list s.below) };

    ghost given = { λ s. given_of_parts s.times s.round (S.Source.list s.below) (S.Source.given s.below) };

    #[tactic(auto, using(crate::proofs::Giving::rounds))]
    fn next(&mut self) -> Option<u8> {
        if self.round >= self.times {
            return None;
        }
        if let Some(number) = self.below.next() {
            return Some(number);
        }
        self.round += 1;
        if self.round >= self.times {
            return None;
        }
        self.below.rewind();
        self.below.next()
    }

    fn rewind(&mut self) {
        self.round = 0;
        self.below.rewind();
    }
}
