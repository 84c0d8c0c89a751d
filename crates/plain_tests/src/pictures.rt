// All that a caster of eight consoles and two sessions answers.
use caster::Caster;
use floor::Refusal;
use plain::PlainEvent;
use std::array;

// What a console has cast and delivered in a session.
#[derive(Clone, Copy, PartialEq, Debug)]
struct Sight {
    cast: Result<Option<usize>, Refusal>,
    delivered: Result<Option<usize>, Refusal>,
}

#[derive(Clone, Copy, PartialEq, Debug)]
pub(crate) struct Picture {
    steps: usize,
    quiet: bool,
    offered: Option<PlainEvent>,
    sights: [[Sight; 8]; 2],
}

fn sights(caster: &impl Caster, session: usize) -> [Sight; 8] {
    array::from_fn(|console| Sight {
        cast: caster.cast_at(console, session),
        delivered: caster.delivered_at(console, session),
    })
}

impl Picture {
    pub(crate) fn of(caster: &impl Caster<Event = PlainEvent>) -> Picture {
        Picture {
            steps: caster.steps_left(),
            quiet: caster.is_quiet(),
            offered: caster.offer(),
            sights: array::from_fn(|session| sights(caster, session)),
        }
    }
}
