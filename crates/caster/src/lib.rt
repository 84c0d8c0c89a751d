// What a caster is: what it means, the laws that it keeps, and the calls that every caster has. docs/casters.md explains them.
#![tactic(auto)]

mod delivery;
mod draining;
mod floor_figures;
mod interface;

pub use delivery::Delivery;
pub use draining::drain;
pub use floor_figures::FloorFigures;
pub use interface::Caster;
