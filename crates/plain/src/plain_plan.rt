// What a plain caster is made of, once it is in order.
ghost use Rattle.std.specs.Prelude.{◌≡◌};
ghost use Rattle.caster.specs.Floors.{InRange};
ghost use Rattle.plain_model.specs.Plans.{SoundPlan};

use caster::FloorFigures;
use plain_session::Setting;
use plain_tables::Plan;
use quorum::Figures;
use std::marker::Model;

/// A floor, and thresholds that keep their rules on it.
// No model: whoever is handed a plan knows that it is in order, and a model hides that from callers.
#[derive(Drop)]
pub struct PlainPlan {
    pub(crate) plan: KeptPlan,
    ghost sound: { SoundPlan plan },
}

/// The same as a caster keeps it, so that its clauses see a plan and no more.
#[derive(Drop)]
pub(crate) struct KeptPlan {
    pub(crate) plan: Plan,
}

impl Model for KeptPlan {
    ghost use Rattle.plain_tables.specs.declared.plan.Plan.{Plan};
    ghost use Rattle.plain_model.specs.Plans.{SoundPlan};

    ghost Value = { Plan };

    ghost view = { λ kept. kept.plan };

    ghost invariant = { λ kept. SoundPlan kept.plan };
}

impl KeptPlan {
    pub(crate) fn floor(&self) -> FloorFigures
        ensures value { result ≡ self.now.floor }
        ensures in_range { InRange result }
    {
        self.plan.floor
    }

    pub(crate) fn setting(&self) -> &Setting
        ensures { result.now ≡ self.now.setting }
    {
        &self.plan.setting
    }

    pub(crate) fn figures(&self) -> Figures
        ensures { result ≡ self.now.figures }
    {
        self.plan.figures
    }
}
