// The events of a plain caster.
ghost use Rattle.std.specs.Prelude.{◌≡◌};
ghost use Rattle.floor.specs.Refusals.{Rising};
ghost use Rattle.plain_tables.specs.declared.event.PlainEvent.TheVariants.{Hand, Lose, Inject};
ghost use Rattle.plain_model.specs.Offers.{Offers};
ghost use Rattle.plain_model.specs.Steps.{event_checks, offer_of};
ghost use Rattle.plain.specs.Changes.{Takes};

use super::PlainCaster;
use caster::Delivery;
use floor::Refusal;
use plain_session::Endorsement;
use plain_tables::PlainEvent;

impl PlainCaster {
    /// The next copy, to be handed over: the lowest under way by session, then number, sender and receiver.
    pub fn next_event(&self) -> Option<PlainEvent>
        ensures answered { result ≡ offer_of self.now.tables }
        ensures lowest { Offers self.now.tables result }
    {
        self.hand_next()
    }

    fn hand_next(&self) -> Option<PlainEvent>
        ensures { result ≡ offer_of self.now.tables }
    {
        Some(PlainEvent::Hand(self.tables.next_copy()?))
    }

    // Three functions and no parameter for the kind: each checks and writes something else, and `step` alone chooses.

    // A copy from an honest console is handed to an honest console.
    pub(crate) fn hand(&mut self, e: Endorsement) -> Result<Option<Delivery>, Refusal>
        ensures taken { Takes self.old (Hand e) result self.new }
        ensures rising { Rising (event_checks self.old.plan self.old.tables (Hand e)) }
    {
        let route = self.to_hand(e)?;
        Ok(self.take_hand(route))
    }

    // A copy from an honest console to an honest console is lost.
    pub(crate) fn lose(&mut self, e: Endorsement) -> Result<Option<Delivery>, Refusal>
        ensures taken { Takes self.old (Lose e) result self.new }
        ensures rising { Rising (event_checks self.old.plan self.old.tables (Lose e)) }
    {
        let route = self.to_lose(e)?;
        self.take_loss(route);
        Ok(None)
    }

    // A Byzantine console endorses a number to an honest console.
    pub(crate) fn inject(&mut self, e: Endorsement) -> Result<Option<Delivery>, Refusal>
        ensures taken { Takes self.old (Inject e) result self.new }
        ensures rising { Rising (event_checks self.old.plan self.old.tables (Inject e)) }
    {
        let route = self.to_inject(e)?;
        Ok(self.take_injection(route))
    }
}
