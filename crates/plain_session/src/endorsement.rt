// A copy of an endorsement, by any numbers.
use std::fmt;

/// Of the number in the session, from the sender, to the receiver.
#[derive(Clone, Copy, PartialEq, Eq, Debug)]
pub struct Endorsement {
    pub sender: usize,
    pub receiver: usize,
    pub session: usize,
    pub number: usize,
}

impl fmt::Display for Endorsement {
    fn fmt<W: fmt::Write>(&self, f: &mut fmt::Formatter<W>) -> fmt::Result {
        let Endorsement {
            sender,
            receiver,
            session,
            number,
        } = self;
        write!(
            f,
            "{sender} -> {receiver} session {session} number {number}"
        )
    }
}
