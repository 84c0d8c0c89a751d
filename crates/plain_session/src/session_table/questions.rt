// What the table of a session tells.
ghost use Rattle.std.specs.Prelude.{◌≡◌, count_ones};
ghost use Rattle.sets.specs.Members.{has};
ghost use Rattle.plain_session.specs.Rows.{heard_by, pending_from, lost_from};
ghost use Rattle.plain_session.specs.Sessions.{row_of, cast_by, delivered_by, first_copy};

use super::SessionTable;
use crate::endorsement::Endorsement;
use crate::places::Route;

impl SessionTable {
    // Two questions of one line: a function over both tables would take the table and say no less.

    /// What the console has cast.
    pub fn cast_by(&self, console: usize) -> Option<usize>
        ensures { result ≡ cast_by self.now console }
    {
        *self.casts.get(console)?
    }

    /// What the console has delivered.
    pub fn delivered_by(&self, console: usize) -> Option<usize>
        ensures { result ≡ delivered_by self.now console }
    {
        *self.deliveries.get(console)?
    }

    /// Whether the copy is under way.
    pub fn is_under_way(&self, route: Route) -> bool
        ensures { result ≡ has (pending_from (row_of self.now route.number) route.sender).mask route.receiver }
    {
        let copy = route.copy;
        self.rows[copy.number].pending[copy.sender].contains(copy.receiver)
    }

    /// Whether the receiver has the endorsement.
    pub fn has_heard(&self, route: Route) -> bool
        ensures { result ≡ has (heard_by (row_of self.now route.number) route.receiver).mask route.sender }
    {
        let copy = route.copy;
        self.rows[copy.number].heard[copy.receiver].contains(copy.sender)
    }

    /// How many copies of the sender's endorsement were lost.
    pub fn losses(&self, route: Route) -> usize
        ensures { result ≡ count_ones (lost_from (row_of self.now route.number) route.sender).mask }
    {
        let copy = route.copy;
        self.rows[copy.number].lost[copy.sender].len()
    }

    /// The copy under way that is the lowest by number, sender and receiver.
    pub fn first_copy(&self, session: usize) -> Option<Endorsement>
        ensures { result ≡ first_copy self.now session }
    {
        let number = self.numbers.first()?;
        self.rows.get(number)?.first_copy(session, number)
    }
}
