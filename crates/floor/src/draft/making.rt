// Making a draft: the first call answers a refusal or a plan, the second makes the draft of the plan.
ghost use Rattle.std.specs.Prelude.{◌≡◌};
ghost use Rattle.floor.specs.Drafts.{IsSound, plan_answer};
ghost use Rattle.floor.specs.States.{plan_of, planned, state_of};

use super::{Draft, DraftPlan};
use crate::refusal::Refusal;
use arrayvec::ArrayVec;
use quorum::Counts;
use sets::ConsoleSet;

const MAX_PAYLOADS: usize = 8;

impl Draft {
    // Four numbers as they are handed in, as for counts.
    pub fn plan(
        consoles: usize,
        byzantine: usize,
        lost: usize,
        capacity: usize,
    ) -> Result<DraftPlan, Refusal>
        ensures { planned result ≡ plan_answer consoles byzantine lost capacity }
    {
        let counts = Counts::new(consoles, byzantine, lost).ok_or(Refusal::OutOfRange)?;
        if !(1..=MAX_PAYLOADS).contains(&capacity) {
            return Err(Refusal::OutOfRange);
        }
        Ok(DraftPlan { counts, capacity })
    }

    // No `From`, since making in two calls, `plan` and `new`, is a rule of the project.
    pub fn new(plan: DraftPlan) -> Draft
        ensures made { state_of result ≡ plan_of plan }
        ensures sound { IsSound (state_of result) }
    {
        let DraftPlan { counts, capacity } = plan;
        Draft {
            counts,
            capacity,
            marked: ConsoleSet::empty(),
            sessions: ArrayVec::new(),
        }
    }
}
