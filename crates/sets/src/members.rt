// The members of a set, one after another.
ghost use Rattle.std.specs.Prelude.{◌≡◌, ◌≤◌, count_ones};
ghost use Rattle.sets.specs.Members.{Advances};
ghost use Rattle.std.specs.Iterator.{at_most};

use crate::console_set::ConsoleSet;

/// A walk through a set in ascending order: `rest` is what is still to come.
#[derive(Clone, Drop)]
pub struct Members {
    rest: ConsoleSet,
}

impl Iterator for Members {
    type Item = usize;

    ghost next_gives = { λ s r t. Advances s.rest r t.rest };

    ghost remaining = { λ s. at_most (count_ones s.rest.mask) };

    fn next(&mut self) -> Option<usize> {
        let console = self.rest.first()?;
        self.rest = self.rest.without(console);
        Some(console)
    }
}

impl IntoIterator for ConsoleSet {
    type Item = usize;

    type IntoIter = Members;

    ghost into_iter_gives = { λ s r. (r.rest ≡ s) × (count_ones s.mask ≤ 32) };

    fn into_iter(self) -> Members {
        Members { rest: self }
    }
}
