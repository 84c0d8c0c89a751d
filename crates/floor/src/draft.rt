// A floor under construction.
ghost use Rattle.floor.specs.Drafts.{IsCapacity, IsSound, holding};

mod changes;
mod making;
mod questions;

use crate::session::{MAX_SESSIONS, Session};
use arrayvec::ArrayVec;
use quorum::Counts;
use sets::ConsoleSet;

/// What a draft is made of: counts and a number of payloads that are in range.
// No model, here and at a draft: whoever is handed one knows what it keeps, and a model hides that from callers.
#[derive(Drop)]
pub struct DraftPlan {
    counts: Counts,
    capacity: usize,
    ghost in_range: { IsCapacity capacity },
}

/// The counts of a floor, how many payloads it may list, its Byzantine consoles, and its sessions in order of entry.
#[derive(Drop)]
pub struct Draft {
    counts: Counts,
    capacity: usize,
    marked: ConsoleSet,
    sessions: ArrayVec<Session, MAX_SESSIONS>,
    ghost sound: { IsSound (holding counts capacity marked sessions.items) },
}
