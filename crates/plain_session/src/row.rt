// What has happened to one number of a session.
ghost use Rattle.std.specs.Prelude.{◌≡◌};
ghost use Rattle.plain_session.specs.Rows.{empty_row, hear_row, settle_row, lose_row, endorse_row};
ghost use Rattle.plain_session.specs.Sessions.{first_of_number};

use crate::agenda::Agenda;
use crate::endorsement::Endorsement;
use crate::places::{CONSOLES, Route, Vote};
use sets::ConsoleSet;

// Fixed arrays and no heap. Each write changes one of the three, `heard` by receiver and the others by sender: pairs would be taken apart at each.
#[derive(Clone, Copy, PartialEq, Eq, Debug)]
pub struct Row {
    /// the honest consoles that have endorsed the number
    pub endorsed: ConsoleSet,
    /// by receiver, the consoles whose endorsement has reached it
    pub heard: [ConsoleSet; CONSOLES],
    /// by sender, the consoles to which a copy of its endorsement is under way
    pub pending: [ConsoleSet; CONSOLES],
    /// by sender, the consoles to which a copy of its endorsement was lost
    pub lost: [ConsoleSet; CONSOLES],
    /// the senders that have copies under way
    pub senders: Agenda,
}

impl Row {
    // Nobody has endorsed the number.
    pub(crate) const fn empty() -> Row
        ensures { result ≡ empty_row }
    {
        Row {
            endorsed: ConsoleSet::empty(),
            heard: [ConsoleSet::empty(); CONSOLES],
            pending: [ConsoleSet::empty(); CONSOLES],
            lost: [ConsoleSet::empty(); CONSOLES],
            senders: Agenda::empty(),
        }
    }

    // The sender's endorsement has reached the receiver.
    pub(crate) fn hear(&mut self, route: Route)
        ensures { self.new ≡ hear_row self.old route.sender route.receiver }
    {
        let copy = route.copy;
        self.heard[copy.receiver] = self.heard[copy.receiver].with(copy.sender);
    }

    // The copy is no longer under way.
    pub(crate) fn settle(&mut self, route: Route)
        ensures { self.new ≡ settle_row self.old route.sender route.receiver }
    {
        let copy = route.copy;
        let rest = self.pending[copy.sender].without(copy.receiver);
        self.pending[copy.sender] = rest;
        self.senders = self.senders.noted(copy.sender, !rest.is_empty());
    }

    // The copy is lost.
    pub(crate) fn lose(&mut self, route: Route)
        ensures { self.new ≡ lose_row self.old route.sender route.receiver }
    {
        let copy = route.copy;
        self.lost[copy.sender] = self.lost[copy.sender].with(copy.receiver);
    }

    // The console endorses the number: a copy to each honest console is under way.
    pub(crate) fn endorse(&mut self, vote: Vote, honest: ConsoleSet)
        ensures { self.new ≡ endorse_row self.old vote.console honest }
    {
        self.endorsed = self.endorsed.with(vote.console);
        self.pending[vote.console] = honest;
        self.senders = self.senders.noted(vote.console, !honest.is_empty());
    }

    // The copy under way that is the lowest by sender and receiver. The session and the number name it, and a row knows neither.
    pub(crate) fn first_copy(&self, session: usize, number: usize) -> Option<Endorsement>
        ensures { result ≡ first_of_number self.now session number }
    {
        let sender = self.senders.first()?;
        let receiver = self.pending[sender].first()?;
        Some(Endorsement {
            sender,
            receiver,
            session,
            number,
        })
    }
}
