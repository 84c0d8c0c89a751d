// A session: one broadcast of a floor.

/// The console that owns it, and its sequence number there.
#[derive(Clone, Copy, PartialEq, Eq, Debug, Default)]
pub struct Session {
    pub owner: usize,
    pub sequence: u16,
}

pub const MAX_SESSIONS: usize = 16;
