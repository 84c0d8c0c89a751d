// What a call is refused with for a finding on thresholds.
ghost use Rattle.std.specs.Prelude.{◌≡◌};
ghost use Rattle.floor.specs.declared.refusal.Refusal.TheVariants.{CastersMisfit, ThresholdRule};

use super::Refusal;
use quorum::{Broken, Misfit};

// Thresholds that break a rule.
impl From<Broken> for Refusal {
    ghost from_gives = { λ _ refusal. refusal ≡ ThresholdRule };

    fn from(_broken: Broken) -> Refusal {
        Refusal::ThresholdRule
    }
}

// Two casters that do not fit.
impl From<Misfit> for Refusal {
    ghost from_gives = { λ _ refusal. refusal ≡ CastersMisfit };

    fn from(_misfit: Misfit) -> Refusal {
        Refusal::CastersMisfit
    }
}
