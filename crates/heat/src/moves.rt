// What is done to a caster, one call after another.
use caster::{Caster, Delivery};
use floor::Refusal;
use plain::{PlainCaster, PlainEvent};
use std::fmt;

#[derive(Clone, Copy)]
pub enum Move {
    Cast {
        console: usize,
        session: usize,
        number: usize,
    },
    Step(PlainEvent),
}

impl Move {
    /// Makes the call.
    pub fn make(self, caster: &mut PlainCaster) -> Result<Option<Delivery>, Refusal> {
        match self {
            Move::Cast {
                console,
                session,
                number,
            } => caster.cast(console, session, number),
            Move::Step(event) => caster.step(event),
        }
    }
}

impl fmt::Display for Move {
    fn fmt<W: fmt::Write>(&self, f: &mut fmt::Formatter<W>) -> fmt::Result {
        match self {
            Move::Cast {
                console,
                session,
                number,
            } => write!(
                f,
                "cast console {console} session {session} number {number}"
            ),
            Move::Step(event) => write!(f, "{event}"),
        }
    }
}
