// The figures of a caster: what it achieves at a count of honest consoles.
ghost use Rattle.std.specs.Prelude.{◌≡◌, ◌≤◌, None};
ghost use Rattle.quorum.specs.Figures.{BearingMeans, FiguresMean, bears, figures_at, figures_of, overlap};
ghost use Rattle.quorum.specs.Rules.{PlainRules, RulesHold, SignedRules};
ghost use Rattle.quorum.specs.Waves.{Backs, FiguresPromise, Positive, Reaches, Supports, Voices};
ghost use Rattle.quorum.specs.declared.thresholds.Thresholds.TheVariants.{Plain, Signed};

use crate::composition::Composition;
use crate::counts::Counts;
use crate::rules::Broken;
use crate::thresholds::{PlainThresholds, Thresholds};
use std::fmt;

/// What a caster achieves at a count of honest consoles.
#[derive(Clone, Copy, PartialEq, Eq, Debug)]
pub struct Figures {
    /// So many honest consoles have cast a number that is delivered.
    pub backing: usize,
    /// A number that so many honest consoles cast, and no other, comes to be delivered.
    pub support: usize,
    /// So many honest consoles come to deliver, once one has.
    pub reach: usize,
    /// No two numbers are delivered in a session.
    pub voice: bool,
}

impl fmt::Display for Figures {
    fn fmt<W: fmt::Write>(&self, f: &mut fmt::Formatter<W>) -> fmt::Result {
        let Figures {
            backing,
            support,
            reach,
            voice,
        } = *self;
        let voice = if voice { "yes" } else { "no" };
        write!(
            f,
            "backing {backing} support {support} reach {reach} voice {voice}"
        )
    }
}

impl Thresholds {
    // Counts and an honest count apart: one that the floor cannot have is answered too.
    pub fn figures(&self, counts: Counts, honest: usize) -> Option<Figures>
        ensures answers { result ≡ figures_at self.now counts.consoles counts.byzantine counts.lost honest }
        ensures means { FiguresMean self.now counts.consoles counts.byzantine counts.lost honest result }
        ensures positive { Positive }
        ensures backs { Backs }
        ensures supports { Supports }
        ensures reaches { Reaches }
        ensures voices { Voices }
    {
        let floor = counts.with_honest(honest)?;
        self.check(floor).ok()?;
        Some(self.figures_within(floor))
    }

    /// The figures, if no rule fails at any count of honest consoles that the floor may have.
    #[tactic(auto, using(crate::proofs::Waves::promised))]
    pub fn bear(&self, floor: Composition) -> Result<Figures, Broken>
        ensures answers { result ≡ bears self.now floor.counts.consoles floor.counts.byzantine floor.counts.lost floor.honest }
        ensures means { BearingMeans self.now floor.counts.consoles floor.counts.byzantine floor.counts.lost floor.honest result }
        ensures promises { FiguresPromise }
    {
        match self.broken(floor.counts()) {
            Some(broken) => Err(broken),
            None => Ok(self.figures_within(floor)),
        }
    }

    fn figures_within(&self, floor: Composition) -> Figures
        requires { RulesHold self.now floor.counts.byzantine floor.counts.lost floor.honest }
        ensures { result ≡ figures_of self.now floor.counts.consoles floor.counts.byzantine floor.counts.lost floor.honest }
    {
        match *self {
            Thresholds::Plain(plain) => plain.figures_within(floor),
            Thresholds::Signed { deliver } => signed_figures(floor, deliver),
        }
    }
}

impl PlainThresholds {
    fn figures_within(self, floor: Composition) -> Figures
        requires { PlainRules floor.counts.byzantine floor.counts.lost self.deliver self.forward floor.honest }
        ensures { result ≡ figures_of (Plain self) floor.counts.consoles floor.counts.byzantine floor.counts.lost floor.honest }
    {
        let PlainThresholds {
            deliver,
            forward,
            single,
        } = self;
        let counts = floor.counts();
        let honest = floor.honest();
        let lost = counts.max_lost();
        Figures {
            backing: forward + honest - counts.consoles(),
            support: honest * (forward - 1) / (honest - lost - deliver + forward) + 1,
            reach: honest - honest * lost / (honest - deliver + 1),
            voice: overlaps(counts, forward) || (single && overlaps(counts, deliver)),
        }
    }
}

fn signed_figures(floor: Composition, deliver: usize) -> Figures
    requires { SignedRules floor.counts.byzantine floor.counts.lost deliver floor.honest }
    ensures { result ≡ figures_of (Signed deliver) floor.counts.consoles floor.counts.byzantine floor.counts.lost floor.honest }
{
    let counts = floor.counts();
    let honest = floor.honest();
    Figures {
        backing: deliver + honest - counts.consoles(),
        support: deliver,
        reach: honest - counts.max_lost(),
        voice: overlaps(counts, deliver),
    }
}

// Any two groups of so many consoles share more than are Byzantine.
fn overlaps(counts: Counts, group: usize) -> bool
    requires { group ≤ 32 }
    ensures { result ≡ overlap counts.consoles counts.byzantine group }
{
    counts.consoles() + counts.max_byzantine() < 2 * group
}
