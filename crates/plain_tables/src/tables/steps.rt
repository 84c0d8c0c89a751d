// What an event or a cast does to the sessions of a plain caster.
ghost use Rattle.std.specs.Prelude.{◌≡◌, ◌<◌};
ghost use Rattle.plain_tables.specs.Tables.{empty_tables, note_tables, receive_tables, hand_tables, lose_tables, cast_tables, receive_delivery, hand_delivery};

use super::Tables;
use caster::Delivery;
use plain_session::{Agenda, Route, SESSIONS, SessionTable, Setting, Vote};

impl Tables {
    /// Nothing has happened, and so many steps can come.
    pub const fn empty(left: usize) -> Tables
        ensures { result ≡ empty_tables left }
    {
        Tables {
            sessions: [SessionTable::empty(); SESSIONS],
            busy: Agenda::empty(),
            left,
        }
    }

    /// An endorsement reaches its receiver; answers what the receiver delivers.
    pub fn receive(&mut self, setting: &Setting, route: Route) -> Option<Delivery>
        ensures answered { result ≡ receive_delivery setting.now self.old route }
        ensures left { self.new ≡ receive_tables setting.now self.old route }
    {
        let copy = route.copy;
        let delivery = self.sessions[copy.session].receive(setting, route);
        self.note(copy.session);
        delivery
    }

    /// A copy is handed over; answers what the receiver delivers.
    pub fn hand(&mut self, setting: &Setting, route: Route) -> Option<Delivery>
        ensures answered { result ≡ hand_delivery setting.now self.old route }
        ensures left { self.new ≡ hand_tables setting.now self.old route }
    {
        let copy = route.copy;
        let delivery = self.sessions[copy.session].hand(setting, route);
        self.note(copy.session);
        self.left = self.left.saturating_sub(1);
        delivery
    }

    /// A copy is lost.
    pub fn lose(&mut self, route: Route)
        ensures { self.new ≡ lose_tables self.old route }
    {
        let copy = route.copy;
        self.sessions[copy.session].lose(route);
        self.note(copy.session);
        self.left = self.left.saturating_sub(1);
    }

    /// A console casts a number.
    pub fn cast(&mut self, setting: &Setting, vote: Vote)
        ensures { self.new ≡ cast_tables setting.now self.old vote.console vote.session vote.number }
    {
        self.sessions[vote.session].cast(setting, vote);
        self.note(vote.session);
    }

    // Notes whether copies are under way in the session.
    fn note(&mut self, session: usize)
        requires { session < 16 }
        ensures { self.new ≡ note_tables self.old session }
    {
        let busy = !self.sessions[session].numbers.is_empty();
        self.busy = self.busy.noted(session, busy);
    }
}
