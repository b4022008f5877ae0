// A run of one number.
ghost use Rattle.std.specs.Prelude.{◌≡◌, ℕ, ◌<◌, ◌≤◌, MatchResult, replicate};
ghost use Rattle.sources.specs.declared.fault.SourceFault.TheVariants.{Times};

use crate::fault::SourceFault;
use crate::source::Source;

#[derive(Clone, Copy)]
pub struct Run {
    number: u8,
    times: usize,
    given: usize,
}

impl Run {
    // Refused where the times are more than 1,280.
    pub fn new(number: u8, times: usize) -> Result<Run, SourceFault>
        ensures { MatchResult result (λ s. (times ≤ 1280) × (s.number ≡ number) × (s.times ≡ times) × (s.given ≡ 0)) (λ e. (e ≡ Times) × (1280 < times)) }
    {
        if times > 1280 {
            return Err(SourceFault::Times);
        }
        Ok(Run {
            number,
            times,
            given: 0,
        })
    }
}

impl Source for Run {
    ghost list = { λ s. replicate s.times s.number };

    ghost given = { λ s. s.given };

    fn next(&mut self) -> Option<u8> {
        if self.given >= self.times {
            return None;
        }
        self.given += 1;
        Some(self.number)
    }

    fn rewind(&mut self) {
        self.given = 0;
    }
}
