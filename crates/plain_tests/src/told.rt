// What code knows of a caster's plan that it is handed, and has asked nothing, and of a draft's floor.
ghost use Rattle.std.specs.Prelude.{◌≡◌, ◌≤◌};
ghost use Rattle.floor.specs.States.{state_of};
ghost use Rattle.caster.specs.Floors.{floor_of};

use crate::scenes::eight;
use caster::{Caster, FloorFigures};
use floor::Draft;
use plain::{PlainCaster, PlainPlan};
use std::test::Fail;

fn handed_plan(plan: PlainPlan) -> PlainPlan
    ensures same { result ≡ plan }
    ensures consoles { plan.plan.floor.consoles ≤ 32 }
    ensures sessions { plan.plan.floor.sessions ≤ 16 }
    ensures payloads { plan.plan.floor.capacity ≤ 8 }
{
    plan
}

fn floor_figures(draft: &Draft) -> FloorFigures
    ensures value { result ≡ floor_of (state_of draft.now) }
    ensures consoles { 1 ≤ result.consoles }
    ensures payloads { 1 ≤ result.capacity }
    ensures losses { result.lost ≤ result.consoles }
{
    FloorFigures::from(draft)
}

// One session of two payload numbers, and a copy from each of seven honest consoles to each: 1*2*7*7 steps.
#[test]
fn what_is_handed_on_is_known(rt: HostRuntime) -> Result<(), Fail> {
    let draft = eight(1)?;
    let plan = handed_plan(PlainCaster::standard_echo(&draft)?);
    let caster = PlainCaster::new(plan);
    assert_eq!(rt; caster.floor(), floor_figures(&draft));
    assert_eq!(rt; caster.steps_left(), 98);
    Ok(())
}
