// Why the standard pair does not open a floor.
use floor::Refusal;
use quorum::{Broken, Misfit};

#[derive(Clone, Copy, PartialEq, Eq, Debug)]
pub enum Obstacle {
    /// The echo caster cannot be made.
    Echo(Broken),
    /// The echo caster can be made, and the ready caster cannot.
    Ready(Broken),
    /// Both can be made, and they do not fit.
    Pair(Misfit),
}

impl From<Obstacle> for Refusal {
    ghost use Rattle.std.specs.Prelude.{◌≡◌};
    ghost use Rattle.fitting.specs.Fitting.{refusal_of};

    ghost from_gives = { λ obstacle refusal. refusal ≡ refusal_of obstacle };

    fn from(obstacle: Obstacle) -> Refusal {
        match obstacle {
            Obstacle::Echo(broken) | Obstacle::Ready(broken) => broken.into(),
            Obstacle::Pair(misfit) => misfit.into(),
        }
    }
}
