// The plain caster.
ghost use Rattle.std.specs.Prelude.{◌≡◌};
ghost use Rattle.plain_model.specs.Invariant.{Good};
ghost use Rattle.plain_model.specs.Steps.{steps_left};

mod changes;
mod checks;
mod interface;
mod making;
mod steps;

use crate::plain_plan::KeptPlan;
use plain_tables::Tables;

/// What it was made of, and what has happened since.
// No model: the laws of casters are over all values of the type, so its invariant is a field of it.
#[derive(Drop)]
pub struct PlainCaster {
    plan: KeptPlan,
    tables: Tables,
    ghost counted: { tables.left ≡ steps_left plan tables },
    ghost good: { ∥ Good plan tables ∥₁ },
}
