// The floor that a caster serves.
ghost use Rattle.std.specs.Prelude.{◌≡◌};
ghost use Rattle.caster.specs.Floors.{honest_consoles};

use floor::Draft;
use sets::ConsoleSet;

/// How many consoles there are, which are Byzantine, how many sessions, how many payloads may be listed, and how many copies of a
/// message may be lost.
#[derive(Clone, Copy, PartialEq, Eq, Debug)]
pub struct FloorFigures {
    pub consoles: usize,
    pub byzantine: ConsoleSet,
    pub sessions: usize,
    pub capacity: usize,
    pub lost: usize,
}

impl From<&Draft> for FloorFigures {
    ghost use Rattle.caster.specs.Floors.{IsFloorOf};
    ghost use Rattle.floor.specs.States.{state_of};

    ghost from_gives = { λ draft floor. IsFloorOf (state_of draft.now) floor };

    fn from(draft: &Draft) -> FloorFigures {
        FloorFigures {
            consoles: draft.counts().consoles(),
            byzantine: draft.byzantine(),
            sessions: draft.session_count(),
            capacity: draft.capacity(),
            lost: draft.counts().max_lost(),
        }
    }
}

impl FloorFigures {
    /// The honest consoles.
    pub fn honest(self) -> ConsoleSet
        ensures { result ≡ honest_consoles self }
    {
        ConsoleSet::first_n(self.consoles).difference(self.byzantine)
    }
}
