// Writing the table of a session, one thing at a time.
ghost use Rattle.std.specs.Prelude.{◌≡◌};
ghost use Rattle.plain_session.specs.Sessions.{empty_session, hear_table, settle_table, lose_table, endorse_table, deliver_table, record_table};

use super::SessionTable;
use crate::agenda::Agenda;
use crate::places::{CONSOLES, NUMBERS, Route, Vote};
use crate::row::Row;
use sets::ConsoleSet;

impl SessionTable {
    /// Nothing has happened.
    pub const fn empty() -> SessionTable
        ensures { result ≡ empty_session }
    {
        SessionTable {
            rows: [Row::empty(); NUMBERS],
            voters: ConsoleSet::empty(),
            casts: [None; CONSOLES],
            deliveries: [None; CONSOLES],
            numbers: Agenda::empty(),
        }
    }

    // The sender's endorsement has reached the receiver.
    pub(crate) fn hear(&mut self, route: Route)
        ensures { self.new ≡ hear_table self.old route.number route.sender route.receiver }
    {
        self.rows[route.copy.number].hear(route);
    }

    // The copy is no longer under way.
    pub(crate) fn settle(&mut self, route: Route)
        ensures { self.new ≡ settle_table self.old route.number route.sender route.receiver }
    {
        let number = route.copy.number;
        self.rows[number].settle(route);
        self.numbers = self
            .numbers
            .noted(number, !self.rows[number].senders.is_empty());
    }

    // The copy is marked as lost.
    pub(crate) fn mark_lost(&mut self, route: Route)
        ensures { self.new ≡ lose_table self.old route.number route.sender route.receiver }
    {
        self.rows[route.copy.number].lose(route);
    }

    // The console endorses the number.
    pub(crate) fn endorse(&mut self, vote: Vote, honest: ConsoleSet)
        ensures { self.new ≡ endorse_table self.old vote.number vote.console honest }
    {
        self.rows[vote.number].endorse(vote, honest);
        self.voters = self.voters.with(vote.console);
        self.numbers = self
            .numbers
            .noted(vote.number, !self.rows[vote.number].senders.is_empty());
    }

    // The console delivers the number.
    pub(crate) fn deliver(&mut self, vote: Vote)
        ensures { self.new ≡ deliver_table self.old vote.number vote.console }
    {
        self.deliveries[vote.console] = Some(vote.number);
    }

    // The number is recorded as cast by the console.
    pub(crate) fn record(&mut self, vote: Vote)
        ensures { self.new ≡ record_table self.old vote.number vote.console }
    {
        self.casts[vote.console] = Some(vote.number);
    }
}
