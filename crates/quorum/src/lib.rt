// Which thresholds a caster may have on a floor, what it then achieves, and whether two casters fit together.
#![tactic(auto)]

mod composition;
mod counts;
mod figures;
mod fit;
mod rules;
mod thresholds;

pub use composition::Composition;
pub use counts::Counts;
pub use figures::Figures;
pub use fit::Misfit;
pub use rules::{Broken, Rule};
pub use thresholds::{PlainThresholds, Thresholds};
