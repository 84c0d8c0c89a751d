// What is checked before a plain caster changes.
ghost use Rattle.std.specs.Prelude.{[], ◌∷◌, ◌≡◌};
ghost use Rattle.floor.specs.Refusals.{answer, check, first_found};
ghost use Rattle.floor.specs.declared.refusal.Refusal.TheVariants.{OutOfRange};
ghost use Rattle.caster.specs.Meanings.{cast_checks, question_checks};
ghost use Rattle.plain_tables.specs.declared.event.PlainEvent.TheVariants.{Hand, Lose, Inject};
ghost use Rattle.plain_model.specs.Steps.{byzantine, event_checks, meaning_of, outside};
ghost use Rattle.plain.specs.Casts.{choice};

use super::PlainCaster;
use floor::Refusal;
use plain_session::{Endorsement, Route, Vote};

impl PlainCaster {
    fn is_byzantine(&self, console: usize) -> bool
        ensures { result ≡ byzantine self.now.plan.floor console }
    {
        self.plan.floor().byzantine.contains(console)
    }

    // The copy's place in the tables.
    fn route(&self, e: Endorsement) -> Result<Route, Refusal>
        ensures { result ≡ answer (first_found (check (outside self.now.plan.floor e) OutOfRange ∷ [])) e }
    {
        let floor = self.plan.floor();
        if e.sender >= floor.consoles
            || e.receiver >= floor.consoles
            || e.session >= floor.sessions
            || e.number >= floor.capacity
        {
            return Err(Refusal::OutOfRange);
        }
        Ok(Route { copy: e })
    }

    // The place of a copy that can be handed over: it is between honest consoles, and under way.
    pub(crate) fn to_hand(&self, e: Endorsement) -> Result<Route, Refusal>
        ensures { result ≡ answer (first_found (event_checks self.now.plan self.now.tables (Hand e))) e }
    {
        let route = self.route(e)?;
        if self.is_byzantine(e.sender) || self.is_byzantine(e.receiver) {
            return Err(Refusal::WrongHonesty);
        }
        if !self.tables.sessions[e.session].is_under_way(route) {
            return Err(Refusal::NoSuchCopy);
        }
        Ok(route)
    }

    // The place of a copy that can be lost: it can be handed over, and fewer than allowed are lost.
    pub(crate) fn to_lose(&self, e: Endorsement) -> Result<Route, Refusal>
        ensures { result ≡ answer (first_found (event_checks self.now.plan self.now.tables (Lose e))) e }
    {
        let route = self.to_hand(e)?;
        if self.tables.sessions[e.session].losses(route) >= self.plan.floor().lost {
            return Err(Refusal::LossesUsed);
        }
        Ok(route)
    }

    // The place of an endorsement that can be injected: it is from a Byzantine to an honest console, and new.
    pub(crate) fn to_inject(&self, e: Endorsement) -> Result<Route, Refusal>
        ensures { result ≡ answer (first_found (event_checks self.now.plan self.now.tables (Inject e))) e }
    {
        let route = self.route(e)?;
        if !self.is_byzantine(e.sender) || self.is_byzantine(e.receiver) {
            return Err(Refusal::WrongHonesty);
        }
        if self.tables.sessions[e.session].has_heard(route) {
            return Err(Refusal::NothingNew);
        }
        Ok(route)
    }

    // The place of a cast that can be made: the console is honest, and has not cast there.
    pub(crate) fn to_cast(
        &self,
        console: usize,
        session: usize,
        number: usize,
    ) -> Result<Vote, Refusal>
        ensures { result ≡ answer (first_found (cast_checks (meaning_of self.now.plan self.now.tables) console session number)) (choice console session number) }
    {
        let floor = self.plan.floor();
        if console >= floor.consoles || session >= floor.sessions || number >= floor.capacity {
            return Err(Refusal::OutOfRange);
        }
        if self.is_byzantine(console) {
            return Err(Refusal::WrongHonesty);
        }
        if self.tables.sessions[session].cast_by(console).is_some() {
            return Err(Refusal::AlreadyCast);
        }
        Ok(Vote {
            console,
            session,
            number,
        })
    }

    // Whether a question may be asked of the console in the session.
    pub(crate) fn place(&self, console: usize, session: usize) -> Result<(), Refusal>
        ensures { result ≡ answer (first_found (question_checks self.now.plan.floor console session)) tt }
    {
        let floor = self.plan.floor();
        if console >= floor.consoles || session >= floor.sessions {
            return Err(Refusal::OutOfRange);
        }
        if self.is_byzantine(console) {
            return Err(Refusal::WrongHonesty);
        }
        Ok(())
    }
}
