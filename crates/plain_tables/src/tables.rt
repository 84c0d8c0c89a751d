// All sessions of a plain caster.
mod questions;
mod steps;

use plain_session::{Agenda, SESSIONS, SessionTable};

// Fixed arrays and no heap.
#[derive(Clone, Copy, PartialEq, Eq, Debug)]
pub struct Tables {
    /// by session, what has happened in it
    pub sessions: [SessionTable; SESSIONS],
    /// the sessions that have copies under way
    pub busy: Agenda,
    /// how many copies were neither handed nor lost, sent or not
    pub left: usize,
}
