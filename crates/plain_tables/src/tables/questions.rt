// What the tables of a plain caster tell.
ghost use Rattle.std.specs.Prelude.{◌≡◌};
ghost use Rattle.plain_tables.specs.Tables.{quiet, next_copy};

use super::Tables;
use plain_session::Endorsement;

impl Tables {
    /// The copy under way that is the lowest by session, number, sender and receiver.
    pub fn next_copy(&self) -> Option<Endorsement>
        ensures { result ≡ next_copy self.now }
    {
        let session = self.busy.first()?;
        self.sessions.get(session)?.first_copy(session)
    }

    /// Whether no copy is under way.
    pub fn is_quiet(&self) -> bool
        ensures { result ≡ quiet self.now }
    {
        self.busy.is_empty()
    }
}
