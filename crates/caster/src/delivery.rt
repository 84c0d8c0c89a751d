// What a call that brings a delivery answers.
use std::fmt;

/// The console has delivered the number in the session.
#[derive(Clone, Copy, PartialEq, Eq, Debug)]
pub struct Delivery {
    pub console: usize,
    pub session: usize,
    pub number: usize,
}

impl fmt::Display for Delivery {
    fn fmt<W: fmt::Write>(&self, f: &mut fmt::Formatter<W>) -> fmt::Result {
        let Delivery {
            console,
            session,
            number,
        } = self;
        write!(
            f,
            "console {console} delivers number {number} in session {session}"
        )
    }
}
