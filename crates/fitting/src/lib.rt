// What a floor will bear: the standard pair of casters at a count of honest consoles.
#![tactic(auto)]

mod obstacle;
mod report;
mod standard;

pub use obstacle::Obstacle;
pub use standard::{CasterFit, StandardFit, standard_fit};
