// What the honest consoles of a plain caster go by.
use quorum::PlainThresholds;
use sets::ConsoleSet;

/// The honest consoles, and the thresholds at which they deliver and endorse.
#[derive(Clone, Copy, PartialEq, Eq, Debug)]
pub struct Setting {
    pub honest: ConsoleSet,
    pub thresholds: PlainThresholds,
}
