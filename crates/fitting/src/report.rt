// How a fit reads for people.
use crate::obstacle::Obstacle;
use crate::standard::{CasterFit, StandardFit};
use floor::Refusal;
use std::fmt;

impl fmt::Display for CasterFit {
    fn fmt<W: fmt::Write>(&self, f: &mut fmt::Formatter<W>) -> fmt::Result {
        let thresholds = self.thresholds;
        match self.figures {
            Ok(figures) => write!(f, "{thresholds} {figures}"),
            Err(broken) => write!(f, "{thresholds} {broken}"),
        }
    }
}

impl fmt::Display for Obstacle {
    fn fmt<W: fmt::Write>(&self, f: &mut fmt::Formatter<W>) -> fmt::Result {
        let refusal = Refusal::from(*self);
        let number = refusal.number();
        match self {
            Obstacle::Echo(_) => write!(f, "refused with {number} at the echo caster: {refusal}"),
            Obstacle::Ready(_) => write!(f, "refused with {number} at the ready caster: {refusal}"),
            Obstacle::Pair(misfit) => write!(f, "refused with {number}, {refusal}: {misfit}"),
        }
    }
}

impl fmt::Display for StandardFit {
    fn fmt<W: fmt::Write>(&self, f: &mut fmt::Formatter<W>) -> fmt::Result {
        let honest = self.honest;
        let echo = self.echo;
        let ready = self.ready;
        writeln!(f, "h {honest} echo: {echo}")?;
        writeln!(f, "h {honest} ready: {ready}")?;
        match self.obstacle {
            None => write!(f, "h {honest} opens"),
            Some(obstacle) => write!(f, "h {honest} {obstacle}"),
        }
    }
}
