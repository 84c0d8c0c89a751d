// The plain caster as a caster.
ghost use Rattle.plain_model.specs.Steps.{Casted, Stepped, meaning_of, offer_of};
ghost use Rattle.plain_model.proofs.CasterLaws.{plain_laws};
ghost use Rattle.plain.specs.Loans.{nothing_lent};

use super::PlainCaster;
use caster::{Caster, Delivery, FloorFigures};
use floor::Refusal;
use plain_tables::PlainEvent;
use quorum::Figures;

impl Caster for PlainCaster {
    type Event = PlainEvent;

    ghost meaning = { λ s. meaning_of s.plan s.tables };

    ghost casted = { Casted (λ s. s.plan) (λ s. s.tables) };

    ghost stepped = { Stepped (λ s. s.plan) (λ s. s.tables) };

    ghost offered = { λ s. offer_of s.tables };

    ghost laws = { plain_laws (λ s. s.plan) (λ s. s.tables) (λ s. s.good) };

    // Nothing is lent.
    ghost loan = { λ _ _. Unit {0} };

    ghost lasting = { nothing_lent };

    fn cast(
        &mut self,
        console: usize,
        session: usize,
        number: usize,
    ) -> Result<Option<Delivery>, Refusal> {
        let vote = self.to_cast(console, session, number)?;
        self.take_cast(vote);
        Ok(None)
    }

    fn step(&mut self, event: PlainEvent) -> Result<Option<Delivery>, Refusal> {
        match event {
            PlainEvent::Hand(e) => self.hand(e),
            PlainEvent::Lose(e) => self.lose(e),
            PlainEvent::Inject(e) => self.inject(e),
        }
    }

    fn offer(&self) -> Option<PlainEvent> {
        self.next_event()
    }

    fn cast_at(&self, console: usize, session: usize) -> Result<Option<usize>, Refusal> {
        self.place(console, session)?;
        Ok(self.tables.sessions[session].cast_by(console))
    }

    fn delivered_at(&self, console: usize, session: usize) -> Result<Option<usize>, Refusal> {
        self.place(console, session)?;
        Ok(self.tables.sessions[session].delivered_by(console))
    }

    fn steps_left(&self) -> usize {
        self.tables.left
    }

    fn is_quiet(&self) -> bool {
        self.tables.is_quiet()
    }

    fn figures(&self) -> Figures {
        self.plan.figures()
    }

    fn floor(&self) -> FloorFigures {
        self.plan.floor()
    }
}
