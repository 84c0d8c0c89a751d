// The plain caster: it carries payload numbers by endorsements, without signatures. docs/casters.md has its rules and its laws.
#![tactic(auto)]

mod plain_caster;
mod plain_plan;

pub use plain_caster::PlainCaster;
pub use plain_plan::PlainPlan;
pub use plain_session::Endorsement;
pub use plain_tables::PlainEvent;
