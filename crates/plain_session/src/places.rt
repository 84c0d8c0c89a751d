// Places in the tables of a floor: 32 consoles, 16 sessions, 8 payload numbers.
ghost use Rattle.std.specs.Prelude.{◌≡◌};
ghost use Rattle.plain_session.specs.Places.{receiving};

use crate::endorsement::Endorsement;
use caster::Delivery;
use std::marker::Model;

pub const CONSOLES: usize = 32;

pub const SESSIONS: usize = 16;

pub const NUMBERS: usize = 8;

/// A copy of an endorsement that has a place in the tables.
#[derive(Clone, Copy, PartialEq, Eq, Debug)]
pub struct Route {
    pub copy: Endorsement,
}

impl Model for Route {
    ghost use Rattle.plain_session.specs.declared.endorsement.Endorsement.{Endorsement};
    ghost use Rattle.plain_session.specs.Places.{FitsRoute};

    ghost Value = { Endorsement };

    ghost view = { λ route. route.copy };

    ghost invariant = { λ route. FitsRoute route.copy };

    ghost inverse = { λ copy. record { copy = copy } };
}

impl Route {
    // The receiver's choice of the number: a `From` would not say whose.
    pub(crate) fn vote(self) -> Vote
        ensures { result ≡ receiving self }
    {
        Vote {
            console: self.copy.receiver,
            session: self.copy.session,
            number: self.copy.number,
        }
    }
}

/// A console's choice of a number in a session, with a place in the tables.
// No delivery, though it has the same fields: a choice need not be delivered.
#[derive(Clone, Copy, PartialEq, Eq, Debug)]
pub struct Vote {
    pub console: usize,
    pub session: usize,
    pub number: usize,
}

impl Model for Vote {
    ghost use Rattle.plain_session.specs.Places.{Choice, FitsVote};

    ghost Value = { Choice };

    ghost view = { λ vote. record { console = vote.console; session = vote.session; number = vote.number } };

    ghost invariant = { λ vote. FitsVote vote.console vote.session vote.number };

    ghost inverse = { λ choice. record { console = choice.console; session = choice.session; number = choice.number } };
}

impl From<Vote> for Delivery {
    ghost use Rattle.plain_session.specs.Places.{delivery_of};

    ghost from_gives = { λ vote delivery. delivery ≡ delivery_of vote };

    fn from(vote: Vote) -> Delivery {
        Delivery {
            console: vote.console,
            session: vote.session,
            number: vote.number,
        }
    }
}
