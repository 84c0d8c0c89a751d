// All sessions of a plain caster, and what an event or a cast does to them. docs/casters.md has the rules.
#![tactic(auto)]

mod event;
mod plan;
mod tables;

pub use event::PlainEvent;
pub use plan::Plan;
pub use tables::Tables;
