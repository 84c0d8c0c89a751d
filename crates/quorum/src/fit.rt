// Whether a reliable broadcast may stand on two casters.
ghost use Rattle.std.specs.Prelude.{◌≡◌, None};
ghost use Rattle.quorum.specs.Fit.{Fits, misfit_of};
ghost use Rattle.quorum.specs.Worked.{WorkedFloors};

use crate::counts::Counts;
use crate::figures::Figures;
use thiserror::Error;

/// Why a reliable broadcast may not stand on an echo caster and a ready caster.
#[derive(Clone, Copy, PartialEq, Eq, Debug, Error)]
pub enum Misfit {
    /// The echo caster may deliver two numbers in a session.
    #[error("the echo caster has no voice")]
    EchoVoice,
    /// The consoles that a start reaches are too few for the echo caster.
    #[error("the echo caster's support exceeds h-d")]
    EchoSupport,
    /// The consoles that the echo caster reaches are too few for the ready caster.
    #[error("the ready caster's support exceeds the echo caster's reach")]
    ReadySupport,
}

impl Figures {
    /// `self` is the echo caster's.
    // An `Option`, since to find no misfit is an answer like another; and the honest count may be one that the floor cannot have.
    pub fn misfit(&self, ready: &Figures, counts: Counts, honest: usize) -> Option<Misfit>
        ensures answers { result ≡ misfit_of self.now ready.now counts.lost honest }
        ensures sound { result ≡ None → Fits self.now ready.now counts.lost honest }
        ensures complete { Fits self.now ready.now counts.lost honest → result ≡ None }
        ensures worked { WorkedFloors }
    {
        if !self.voice {
            return Some(Misfit::EchoVoice);
        }
        if honest.saturating_sub(counts.max_lost()) < self.support {
            return Some(Misfit::EchoSupport);
        }
        if self.reach < ready.support {
            return Some(Misfit::ReadySupport);
        }
        None
    }
}
