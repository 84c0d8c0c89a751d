// How a wave has ended, and what the caster's figures promise of it.
use caster::Caster;
use floor::Refusal;
use plain::PlainCaster;
use quorum::Figures;
use std::fmt;

// How many honest consoles have a number, and how many have another one.
#[derive(Clone, Copy, Default)]
struct Tally {
    same: usize,
    other: usize,
}

impl Tally {
    // The tally with what one more console has.
    fn and(self, number: usize, found: Option<usize>) -> Tally {
        match found {
            None => self,
            Some(found) if found == number => Tally {
                same: self.same.saturating_add(1),
                ..self
            },
            Some(_) => Tally {
                other: self.other.saturating_add(1),
                ..self
            },
        }
    }
}

/// What has become of a number in a session.
#[derive(Clone, Copy)]
pub struct Closing {
    number: usize,
    casts: Tally,
    deliveries: Tally,
    quiet: bool,
    steps: usize,
    figures: Figures,
}

impl Closing {
    // A session and a number, which nothing else here takes together.
    pub fn of(caster: &PlainCaster, session: usize, number: usize) -> Result<Closing, Refusal> {
        // A `for`, since a fold would carry both tallies through each `?`.
        let mut casts = Tally::default();
        let mut deliveries = Tally::default();
        for console in caster.floor().honest() {
            casts = casts.and(number, caster.cast_at(console, session)?);
            deliveries = deliveries.and(number, caster.delivered_at(console, session)?);
        }
        Ok(Closing {
            number,
            casts,
            deliveries,
            quiet: caster.is_quiet(),
            steps: caster.steps_left(),
            figures: caster.figures(),
        })
    }
}

// Two words, which a function shared with the figures' own text would say no plainer.
fn yes(answer: bool) -> &'static str {
    if answer { "yes" } else { "no" }
}

impl fmt::Display for Closing {
    fn fmt<W: fmt::Write>(&self, f: &mut fmt::Formatter<W>) -> fmt::Result {
        let Closing {
            number,
            casts,
            deliveries,
            quiet,
            steps,
            figures,
        } = *self;
        let Figures {
            backing,
            support,
            reach,
            voice,
        } = figures;
        writeln!(f, "quiet {} steps left {steps}", yes(quiet))?;
        let Tally { same, other } = casts;
        writeln!(
            f,
            "cast number {number}: {same} honest consoles, backing {backing} support {support}"
        )?;
        writeln!(f, "cast another number: {other} honest consoles")?;
        let Tally { same, other } = deliveries;
        writeln!(
            f,
            "delivered number {number}: {same} honest consoles, reach {reach}"
        )?;
        write!(
            f,
            "delivered another number: {other} honest consoles, voice {}",
            yes(voice)
        )
    }
}
