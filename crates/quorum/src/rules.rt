// The rules that thresholds have to keep, and where they fail first.
ghost use Rattle.std.specs.Prelude.{◌≡◌};
ghost use Rattle.std.specs.Result.{result_err};
ghost use Rattle.quorum.specs.Rules.{Verdict, broken_at, first_broken, plain_broken_at, signed_broken_at};
ghost use Rattle.quorum.specs.Waves.{Amplification, RulesAmplify};

use crate::composition::Composition;
use crate::counts::Counts;
use crate::thresholds::{PlainThresholds, Thresholds};
use thiserror::Error;

/// What thresholds have to keep at each count g of honest consoles.
#[derive(Clone, Copy, PartialEq, Eq, Debug, Error)]
pub enum Rule {
    /// Among as many endorsers as make a console forward, or signers as make it deliver, one is honest.
    #[error("first rule, qf > t")]
    Witnessed,
    /// A console forwards no later than it delivers.
    #[error("second rule, qd >= qf")]
    Ordered,
    /// The copies that arrive suffice to deliver.
    #[error("third rule, g-d >= qd")]
    Attainable,
    /// Endorsements do not come to rest one short of a delivery.
    #[error("fourth rule, (g-d-qd+qf)*(qd-1) > g*(qf-1)")]
    Amplified,
    /// Nor do they where Byzantine consoles could make up for what is short.
    #[error("fifth rule, y*(g-d+qf-1-y) >= g*(qf-1) with y = qd-1-t")]
    Sustained,
    /// Any two messages reach some console in common.
    #[error("first rule of signed casters, g > 2*d")]
    Overlapping,
}

/// The lowest count of honest consoles at which a rule fails, and the first rule that fails there.
#[derive(Clone, Copy, PartialEq, Eq, Debug, Error)]
#[error("breaks the {rule}, at g = {honest}")]
pub struct Broken {
    pub honest: usize,
    pub rule: Rule,
}

impl Thresholds {
    // An `Option`, since to find no broken rule is an answer like another.
    pub fn broken(&self, counts: Counts) -> Option<Broken>
        ensures answers { result ≡ first_broken self.now counts.consoles counts.byzantine counts.lost }
        ensures means { Verdict self.now counts.consoles counts.byzantine counts.lost result }
        ensures amplification { RulesAmplify × Amplification }
    {
        let consoles = counts.consoles();
        // A `for`, since the proof did not close over a `find_map`.
        for honest in consoles - counts.max_byzantine()..=consoles {
            if let Err(rule) = self.check(counts.with_honest(honest).unwrap()) {
                return Some(Broken { honest, rule });
            }
        }
        None
    }

    // The rules are kept at the floor's honest count, or one fails first.
    pub(crate) fn check(&self, floor: Composition) -> Result<(), Rule>
        ensures { result_err result ≡ broken_at self.now floor.counts.byzantine floor.counts.lost floor.honest }
    {
        match *self {
            Thresholds::Plain(plain) => plain.check(floor),
            Thresholds::Signed { deliver } => check_signed(floor, deliver),
        }
    }
}

impl PlainThresholds {
    fn check(&self, floor: Composition) -> Result<(), Rule>
        ensures { result_err result ≡ plain_broken_at floor.counts.byzantine floor.counts.lost self.now.deliver self.now.forward floor.honest }
    {
        let PlainThresholds {
            deliver,
            forward,
            ..
        } = *self;
        let honest = floor.honest();
        let byzantine = floor.counts().max_byzantine();
        let lost = floor.counts().max_lost();
        if forward <= byzantine {
            return Err(Rule::Witnessed);
        }
        if deliver < forward {
            return Err(Rule::Ordered);
        }
        if honest.saturating_sub(lost) < deliver {
            return Err(Rule::Attainable);
        }
        // So many copies can lie at honest consoles without making one of them forward.
        let idle = honest * (forward - 1);
        if (honest - lost - deliver + forward) * (deliver - 1) <= idle {
            return Err(Rule::Amplified);
        }
        let unhelped = deliver - 1 - byzantine;
        if unhelped * (honest - lost + forward - 1 - unhelped) < idle {
            return Err(Rule::Sustained);
        }
        Ok(())
    }
}

fn check_signed(floor: Composition, deliver: usize) -> Result<(), Rule>
    ensures { result_err result ≡ signed_broken_at floor.counts.byzantine floor.counts.lost deliver floor.honest }
{
    let honest = floor.honest();
    let lost = floor.counts().max_lost();
    if honest <= 2 * lost {
        return Err(Rule::Overlapping);
    }
    if honest - lost < deliver {
        return Err(Rule::Attainable);
    }
    if deliver <= floor.counts().max_byzantine() {
        return Err(Rule::Witnessed);
    }
    Ok(())
}
