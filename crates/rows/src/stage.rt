// A stage: how many bells are rung.
ghost use Rattle.std.specs.Prelude.{◌≡◌, ◌≤◌, MatchResult};
ghost use Rattle.rows.specs.Rows.{IsStage};
ghost use Rattle.rows.specs.declared.fault.RowFault.TheVariants.{Stage as NoStage};

use crate::fault::RowFault;

#[derive(Clone, Copy)]
pub struct Stage {
    pub bells: u8,
    ghost least: { 4 ≤ bells },
    ghost most: { bells ≤ 12 },
}

impl Stage {
    // The stage of this many bells, or the refusal that comes before all others.
    pub fn new(bells: usize) -> Result<Stage, RowFault>
        ensures { MatchResult result (λ s. s.bells ≡ bells) (λ e. (e ≡ NoStage) × (IsStage bells → ⊥)) }
    {
        if !(4..=12).contains(&bells) {
            return Err(RowFault::Stage);
        }
        Ok(Stage { bells: bells as u8 })
    }
}
