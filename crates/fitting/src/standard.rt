// The standard pair at a count of honest consoles.
ghost use Rattle.std.specs.Prelude.{◌≡◌, IfOk};
ghost use Rattle.std.specs.Result.{result_err};
ghost use Rattle.fitting.specs.Fitting.{caster_fit, obstacle_of, standard_fit_of, Opening};

use crate::obstacle::Obstacle;
use floor::Refusal;
use quorum::{Broken, Composition, Counts, Figures, PlainThresholds, Thresholds};

/// One caster: its thresholds, and its figures or else the rule that it breaks.
#[derive(Clone, Copy, PartialEq, Eq, Debug)]
pub struct CasterFit {
    pub thresholds: Thresholds,
    pub figures: Result<Figures, Broken>,
}

/// Both casters of the pair, and what stands in the way of opening a floor on them.
#[derive(Clone, Copy, PartialEq, Eq, Debug)]
pub struct StandardFit {
    pub honest: usize,
    pub echo: CasterFit,
    pub ready: CasterFit,
    // An `Option`, since to open is no failure of the question.
    pub obstacle: Option<Obstacle>,
}

/// What the standard pair bears at `honest` honest consoles; refused where the floor cannot have so many, or so few.
// So counts and an honest count are given apart.
pub fn standard_fit(counts: Counts, honest: usize) -> Result<StandardFit, Refusal>
    ensures answered { result ≡ standard_fit_of counts.consoles counts.byzantine counts.lost honest }
    ensures opening { IfOk result (Opening counts.consoles counts.byzantine counts.lost honest) }
{
    let floor = counts.with_honest(honest).ok_or(Refusal::OutOfRange)?;
    let echo = caster_at(PlainThresholds::standard_echo(counts).into(), floor);
    let ready = caster_at(PlainThresholds::standard_ready(counts).into(), floor);
    let obstacle = opened(echo, ready, floor).err();
    Ok(StandardFit {
        honest,
        echo,
        ready,
        obstacle,
    })
}

fn caster_at(thresholds: Thresholds, floor: Composition) -> CasterFit
    ensures { result ≡ caster_fit thresholds floor.counts.consoles floor.counts.byzantine floor.counts.lost floor.honest }
{
    CasterFit {
        thresholds,
        figures: thresholds.bear(floor),
    }
}

// The echo caster is made first, then the ready caster, and then the two are held against each other.
fn opened(echo: CasterFit, ready: CasterFit, floor: Composition) -> Result<(), Obstacle>
    ensures { result_err result ≡ obstacle_of echo.figures ready.figures floor.counts.lost floor.honest }
{
    let echo = echo.figures.map_err(Obstacle::Echo)?;
    let ready = ready.figures.map_err(Obstacle::Ready)?;
    match echo.misfit(&ready, floor.counts(), floor.honest()) {
        Some(misfit) => Err(Obstacle::Pair(misfit)),
        None => Ok(()),
    }
}
