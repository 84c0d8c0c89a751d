// What a plain caster is made of.
use caster::FloorFigures;
use plain_session::Setting;
use quorum::Figures;

/// The floor, how many of its consoles may be Byzantine, what the honest consoles go by, and what they achieve with that.
#[derive(Clone, Copy, PartialEq, Eq, Debug)]
pub struct Plan {
    pub floor: FloorFigures,
    pub tolerated: usize,
    pub setting: Setting,
    pub figures: Figures,
}
