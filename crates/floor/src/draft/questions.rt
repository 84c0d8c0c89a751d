// What a draft answers.
ghost use Rattle.std.specs.Prelude.{◌≡◌, ◌-◌, ◌≤◌, length};
ghost use Rattle.floor.specs.Drafts.{IsCapacity, IsTolerated, honest_count, session_answer};
ghost use Rattle.floor.specs.Sessions.{Orderly};
ghost use Rattle.floor.specs.States.{state_of};

use super::Draft;
use crate::refusal::Refusal;
use crate::session::Session;
use quorum::{Composition, Counts};
use sets::ConsoleSet;

impl Draft {
    pub fn counts(&self) -> Counts
        ensures consoles { result.consoles ≡ (state_of self.now).n }
        ensures byzantine { result.byzantine ≡ (state_of self.now).t }
        ensures lost { result.lost ≡ (state_of self.now).d }
    {
        self.counts
    }

    /// How many payloads the floor may list.
    pub fn capacity(&self) -> usize
        ensures answered { result ≡ (state_of self.now).capacity }
        ensures in_range { IsCapacity result }
    {
        self.capacity
    }

    pub fn byzantine(&self) -> ConsoleSet
        ensures answered { result ≡ (state_of self.now).byzantine }
        ensures tolerated { IsTolerated (state_of self.now).n (state_of self.now).t result }
    {
        self.marked
    }

    pub fn session_count(&self) -> usize
        ensures answered { result ≡ length (state_of self.now).sessions }
        ensures few { result ≤ 16 }
        ensures orderly { Orderly (state_of self.now).n (state_of self.now).sessions }
    {
        self.sessions.len()
    }

    pub fn session(&self, number: usize) -> Result<Session, Refusal>
        ensures { result ≡ session_answer (state_of self.now) number }
    {
        self.sessions
            .get(number)
            .copied()
            .ok_or(Refusal::OutOfRange)
    }

    /// How many consoles are honest: those that are not marked.
    pub fn honest_count(&self) -> usize
        ensures answered { result ≡ honest_count (state_of self.now) }
        ensures at_least { (state_of self.now).n - (state_of self.now).t ≤ result }
        ensures at_most { result ≤ (state_of self.now).n }
    {
        self.counts.consoles() - self.byzantine().len()
    }

    /// The floor as it stands: its counts, and how many of its consoles are honest.
    pub fn composition(&self) -> Composition
        ensures consoles { result.counts.consoles ≡ (state_of self.now).n }
        ensures byzantine { result.counts.byzantine ≡ (state_of self.now).t }
        ensures lost { result.counts.lost ≡ (state_of self.now).d }
        ensures honest { result.honest ≡ honest_count (state_of self.now) }
    {
        self.counts.with_honest(self.honest_count()).unwrap()
    }
}
