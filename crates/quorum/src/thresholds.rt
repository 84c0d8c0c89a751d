// The thresholds of a caster, and the pair that a reliable broadcast takes unless it is given others.
ghost use Rattle.std.specs.Prelude.{◌≡◌};
ghost use Rattle.quorum.specs.Standard.{standard_echo, standard_ready};

use crate::counts::Counts;
use std::fmt;

/// A console delivers a number at so many endorsements of it, and endorses the number itself at so many. Under `single` it
/// endorses one number only.
#[derive(Clone, Copy, PartialEq, Eq, Debug)]
pub struct PlainThresholds {
    pub deliver: usize,
    pub forward: usize,
    pub single: bool,
}

/// A console of a signed caster delivers a number at so many signatures of it.
#[derive(Clone, Copy, PartialEq, Eq, Debug)]
pub enum Thresholds {
    Plain(PlainThresholds),
    Signed { deliver: usize },
}

impl PlainThresholds {
    pub fn standard_echo(counts: Counts) -> PlainThresholds
        ensures { result ≡ standard_echo counts.consoles counts.byzantine }
    {
        PlainThresholds {
            deliver: (counts.consoles() + counts.max_byzantine()) / 2 + 1,
            forward: counts.max_byzantine() + 1,
            single: true,
        }
    }

    pub fn standard_ready(counts: Counts) -> PlainThresholds
        ensures { result ≡ standard_ready counts.byzantine counts.lost }
    {
        PlainThresholds {
            deliver: 2 * counts.max_byzantine() + counts.max_lost() + 1,
            forward: counts.max_byzantine() + 1,
            single: false,
        }
    }
}

impl From<PlainThresholds> for Thresholds {
    ghost use Rattle.quorum.specs.declared.thresholds.Thresholds.TheVariants.{Plain};

    ghost from_gives = { λ plain thresholds. thresholds ≡ Plain plain };

    fn from(plain: PlainThresholds) -> Thresholds {
        Thresholds::Plain(plain)
    }
}

impl fmt::Display for Thresholds {
    fn fmt<W: fmt::Write>(&self, f: &mut fmt::Formatter<W>) -> fmt::Result {
        match *self {
            Thresholds::Plain(
                PlainThresholds {
                    deliver,
                    forward,
                    single,
                },
            ) => {
                let single = if single { "on" } else { "off" };
                write!(f, "qd {deliver} qf {forward} single {single}")
            }
            Thresholds::Signed { deliver } => write!(f, "qd {deliver}"),
        }
    }
}
