// Making a plain caster: the first call answers a refusal or a plan, the second makes the caster of the plan.
ghost use Rattle.std.specs.Prelude.{◌≡◌};
ghost use Rattle.floor.specs.Refusals.{Rising};
ghost use Rattle.floor.specs.States.{state_of};
ghost use Rattle.quorum.specs.Standard.{standard_echo, standard_ready};
ghost use Rattle.plain_model.specs.Making.{plan_checks, plan_answer, new_tables};
ghost use Rattle.plain_model.specs.Plans.{SoundPlan};
ghost use Rattle.plain.specs.Plans.{planned};

use super::PlainCaster;
use crate::plain_plan::{KeptPlan, PlainPlan};
use caster::FloorFigures;
use floor::{Draft, Refusal};
use plain_session::Setting;
use plain_tables::{Plan, Tables};
use quorum::{PlainThresholds, Thresholds};

impl PlainCaster {
    pub fn plan(draft: &Draft, thresholds: PlainThresholds) -> Result<PlainPlan, Refusal>
        ensures answered { planned result ≡ plan_answer (state_of draft.now) thresholds }
        ensures rising { Rising (plan_checks (state_of draft.now) thresholds) }
    {
        let composition = draft.composition();
        let figures = Thresholds::from(thresholds).bear(composition)?;
        let floor = FloorFigures::from(draft);
        let setting = Setting {
            honest: floor.honest(),
            thresholds,
        };
        let plan = KeptPlan {
            plan: Plan {
                floor,
                tolerated: composition.counts().max_byzantine(),
                setting,
                figures,
            },
        };
        Ok(PlainPlan { plan })
    }

    /// The plan of the standard echo caster.
    // A function for each of the pair, by a rule of the project.
    pub fn standard_echo(draft: &Draft) -> Result<PlainPlan, Refusal>
        ensures { planned result ≡ plan_answer (state_of draft.now) (standard_echo (state_of draft.now).n (state_of draft.now).t) }
    {
        PlainCaster::plan(draft, PlainThresholds::standard_echo(draft.counts()))
    }

    /// The plan of the standard ready caster.
    pub fn standard_ready(draft: &Draft) -> Result<PlainPlan, Refusal>
        ensures { planned result ≡ plan_answer (state_of draft.now) (standard_ready (state_of draft.now).t (state_of draft.now).d) }
    {
        PlainCaster::plan(draft, PlainThresholds::standard_ready(draft.counts()))
    }

    /// Nothing is cast, and nothing is under way.
    // No `From`, since making in two calls, `plan` and `new`, is a rule of the project.
    pub fn new(plan: PlainPlan) -> PlainCaster
        ensures planned { result.plan ≡ plan.plan }
        ensures fresh { result.tables ≡ new_tables plan.plan }
        ensures sound { SoundPlan plan.plan }
    {
        let PlainPlan { plan } = plan;
        let honest = plan.setting().honest.len();
        let floor = plan.floor();
        let steps = floor.sessions * (floor.capacity * (honest * honest));
        started(plan, Tables::empty(steps))
    }
}

// A caster on which nothing has happened.
fn started(plan: KeptPlan, tables: Tables) -> PlainCaster
    requires { tables ≡ new_tables plan }
    ensures planned { result.plan ≡ plan }
    ensures fresh { result.tables ≡ tables }
{
    // Opens the plan, for what its model says of it.
    let _ = &plan.plan;
    PlainCaster { plan, tables }
}
