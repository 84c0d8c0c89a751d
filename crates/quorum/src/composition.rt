// What a floor is made of.
ghost use Rattle.std.specs.Prelude.{◌≡◌, ◌-◌, ◌≤◌, ◌↔◌, IsSome, IfSome};

use crate::counts::Counts;

/// The counts of a floor, and how many of its consoles are honest.
// Clauses read both: a view would be a record of the same two.
#[derive(Clone, Copy, PartialEq, Eq, Debug)]
pub struct Composition {
    counts: Counts,
    honest: usize,
    ghost least: { counts.consoles - counts.byzantine ≤ honest },
    ghost most: { honest ≤ counts.consoles },
}

impl Counts {
    pub fn with_honest(self, honest: usize) -> Option<Composition>
        ensures in_range { IsSome result ↔ ((self.consoles - self.byzantine ≤ honest) × (honest ≤ self.consoles)) }
        ensures counts { IfSome result (λ floor. floor.counts ≡ self) }
        ensures honest { IfSome result (λ floor. floor.honest ≡ honest) }
    {
        if honest < self.consoles() - self.max_byzantine() || honest > self.consoles() {
            return None;
        }
        Some(Composition {
            counts: self,
            honest,
        })
    }
}

impl Composition {
    pub fn counts(self) -> Counts
        ensures { result ≡ self.counts }
    {
        self.counts
    }

    pub fn honest(self) -> usize
        ensures { result ≡ self.honest }
    {
        self.honest
    }
}
