// What changes a plain caster: each of these is called only where no check finds anything.
ghost use Rattle.std.specs.Prelude.{◌≡◌, None};
ghost use Rattle.floor.specs.Refusals.{first_found};
ghost use Rattle.caster.specs.Meanings.{cast_checks};
ghost use Rattle.plain_tables.specs.Tables.{cast_tables};
ghost use Rattle.plain_tables.specs.declared.event.PlainEvent.TheVariants.{Hand, Lose, Inject};
ghost use Rattle.plain_model.specs.Steps.{event_checks, event_tables, event_delivery, meaning_of};
ghost use Rattle.plain.specs.Changes.{Leaves};

use super::PlainCaster;
use caster::Delivery;
use plain_session::{Route, Vote};

impl PlainCaster {
    // A function for each, which closes the invariant after it: one for all would switch on the kind again.
    // That no check finds anything is said of each event: a type for it would hold all that the caster does.

    pub(crate) fn take_hand(&mut self, route: Route) -> Option<Delivery>
        requires { first_found (event_checks self.old.plan self.old.tables (Hand route)) ≡ None }
        ensures answered { result ≡ event_delivery self.old.plan self.old.tables (Hand route) }
        ensures left { Leaves self.old (event_tables self.old.plan self.old.tables (Hand route)) self.new }
    {
        self.tables.hand(self.plan.setting(), route)
    }

    pub(crate) fn take_loss(&mut self, route: Route)
        requires { first_found (event_checks self.old.plan self.old.tables (Lose route)) ≡ None }
        ensures left { Leaves self.old (event_tables self.old.plan self.old.tables (Lose route)) self.new }
    {
        self.tables.lose(route);
    }

    pub(crate) fn take_injection(&mut self, route: Route) -> Option<Delivery>
        requires { first_found (event_checks self.old.plan self.old.tables (Inject route)) ≡ None }
        ensures answered { result ≡ event_delivery self.old.plan self.old.tables (Inject route) }
        ensures left { Leaves self.old (event_tables self.old.plan self.old.tables (Inject route)) self.new }
    {
        self.tables.receive(self.plan.setting(), route)
    }

    pub(crate) fn take_cast(&mut self, vote: Vote)
        requires { first_found (cast_checks (meaning_of self.old.plan self.old.tables) vote.console vote.session vote.number) ≡ None }
        ensures left { Leaves self.old (cast_tables self.old.plan.setting self.old.tables vote.console vote.session vote.number) self.new }
    {
        self.tables.cast(self.plan.setting(), vote);
    }
}
