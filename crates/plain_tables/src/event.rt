// What may happen to endorsements on the way.
use plain_session::Endorsement;
use std::fmt;

#[derive(Clone, Copy, PartialEq, Eq, Debug)]
pub enum PlainEvent {
    /// A copy from an honest sender is handed to an honest receiver.
    Hand(Endorsement),
    /// A copy from an honest sender to an honest receiver is lost.
    Lose(Endorsement),
    /// A Byzantine sender endorses a number to an honest receiver.
    Inject(Endorsement),
}

impl fmt::Display for PlainEvent {
    fn fmt<W: fmt::Write>(&self, f: &mut fmt::Formatter<W>) -> fmt::Result {
        match self {
            PlainEvent::Hand(e) => write!(f, "hand {e}"),
            PlainEvent::Lose(e) => write!(f, "lose {e}"),
            PlainEvent::Inject(e) => write!(f, "inject {e}"),
        }
    }
}
