// What the consoles of a plain caster do in a session.
ghost use Rattle.std.specs.Prelude.{◌≡◌};
ghost use Rattle.plain_session.specs.Places.{delivery_if, receiving};
ghost use Rattle.plain_session.specs.Protocol.{may_endorse, may_deliver, forwarded, finished, received, delivers, handed, lost_copy, casting};
ghost use Rattle.plain_session.specs.Sessions.{settle_table};

use super::SessionTable;
use crate::places::{Route, Vote};
use crate::setting::Setting;
use caster::Delivery;

impl SessionTable {
    // The setting is one for all sessions, and a vote or a route of one: a struct of both would be built at each call.

    // Whether a console that has heard the number may endorse it.
    fn may_endorse(&self, setting: &Setting, vote: Vote) -> bool
        ensures { result ≡ may_endorse setting.now self.now vote.number vote.console }
    {
        let row = &self.rows[vote.number];
        row.heard[vote.console].len() >= setting.thresholds.forward
            && (!self.voters.contains(vote.console)
                || !setting.thresholds.single && !row.endorsed.contains(vote.console))
    }

    // Whether a console that has heard the number may deliver it.
    fn may_deliver(&self, setting: &Setting, vote: Vote) -> bool
        ensures { result ≡ may_deliver setting.now self.now vote.number vote.console }
    {
        self.rows[vote.number].heard[vote.console].len() >= setting.thresholds.deliver
            && self.deliveries[vote.console].is_none()
    }

    // The console endorses the number, if it has heard it often enough.
    fn forward(&mut self, setting: &Setting, vote: Vote)
        ensures { self.new ≡ forwarded setting.now self.old vote.number vote.console }
    {
        if self.may_endorse(setting, vote) {
            self.endorse(vote, setting.honest);
        }
    }

    // The console delivers the number, if it has heard it often enough.
    fn finish(&mut self, setting: &Setting, vote: Vote) -> Option<Delivery>
        ensures answered { result ≡ delivery_if (may_deliver setting.now self.old vote.number vote.console) vote }
        ensures left { self.new ≡ finished setting.now self.old vote.number vote.console }
    {
        if !self.may_deliver(setting, vote) {
            return None;
        }
        self.deliver(vote);
        Some(vote.into())
    }

    /// The endorsement reaches the receiver; answers what the receiver delivers.
    pub fn receive(&mut self, setting: &Setting, route: Route) -> Option<Delivery>
        ensures answered { result ≡ delivery_if (delivers setting.now self.old route.number route.sender route.receiver) (receiving route) }
        ensures left { self.new ≡ received setting.now self.old route.number route.sender route.receiver }
    {
        let vote = route.vote();
        self.hear(route);
        self.forward(setting, vote);
        self.finish(setting, vote)
    }

    /// The copy is handed over: it is no longer under way, and the endorsement reaches the receiver.
    pub fn hand(&mut self, setting: &Setting, route: Route) -> Option<Delivery>
        ensures answered { result ≡ delivery_if (delivers setting.now (settle_table self.old route.number route.sender route.receiver) route.number route.sender route.receiver) (receiving route) }
        ensures left { self.new ≡ handed setting.now self.old route.number route.sender route.receiver }
    {
        self.settle(route);
        self.receive(setting, route)
    }

    /// The copy is lost.
    pub fn lose(&mut self, route: Route)
        ensures { self.new ≡ lost_copy self.old route.number route.sender route.receiver }
    {
        self.mark_lost(route);
        self.settle(route);
    }

    /// The console casts the number, and endorses it unless it has endorsed some number in the session.
    pub fn cast(&mut self, setting: &Setting, vote: Vote)
        ensures { self.new ≡ casting setting.now self.old vote.number vote.console }
    {
        if !self.voters.contains(vote.console) {
            self.endorse(vote, setting.honest);
        }
        self.record(vote);
    }
}
