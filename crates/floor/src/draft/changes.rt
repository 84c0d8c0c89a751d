// What a draft takes.
ghost use Rattle.std.specs.Prelude.{◌≡◌, false, is_ok};
ghost use Rattle.floor.specs.Drafts.{mark_checks, mark_answer, after_mark, enter_checks, enter_answer, after_enter};
ghost use Rattle.floor.specs.Refusals.{Rising};
ghost use Rattle.floor.specs.States.{state_of};

use super::Draft;
use crate::refusal::Refusal;
use crate::session::Session;

impl Draft {
    /// Marks a console as Byzantine.
    #[tactic(auto, using(sets::proofs::Operations::with_member_lt, sets::proofs::Operations::ones_with_le))]
    pub fn mark(&mut self, console: usize) -> Result<(), Refusal>
        ensures answered { result ≡ mark_answer (state_of self.old) console }
        ensures left { state_of self.new ≡ after_mark (state_of self.old) console }
        ensures kept { is_ok result ≡ false → self.new ≡ self.old }
        ensures rising { Rising (mark_checks (state_of self.old) console) }
    {
        if console >= self.counts.consoles() {
            return Err(Refusal::OutOfRange);
        }
        if self.marked.contains(console) {
            return Err(Refusal::WrongHonesty);
        }
        if self.marked.len() >= self.counts.max_byzantine() {
            return Err(Refusal::ByzantineFull);
        }
        self.marked = self.marked.with(console);
        Ok(())
    }

    /// Enters a session, and answers its number.
    pub fn enter(&mut self, owner: usize, sequence: usize) -> Result<usize, Refusal>
        ensures answered { result ≡ enter_answer (state_of self.old) owner sequence }
        ensures left { state_of self.new ≡ after_enter (state_of self.old) owner sequence }
        ensures kept { is_ok result ≡ false → self.new ≡ self.old }
        ensures rising { Rising (enter_checks (state_of self.old) owner sequence) }
    {
        if owner >= self.counts.consoles() {
            return Err(Refusal::OutOfRange);
        }
        let sequence = u16::try_from(sequence).map_err(|_| Refusal::OutOfRange)?;
        let session = Session { owner, sequence };
        if self.sessions.contains(&session) {
            return Err(Refusal::SessionTwice);
        }
        if self.sessions.is_full() {
            return Err(Refusal::SessionsFull);
        }
        let number = self.sessions.len();
        self.sessions.push(session);
        Ok(number)
    }
}
