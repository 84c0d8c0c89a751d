// A set of consoles, held as a mask.
ghost use Rattle.std.specs.Prelude.{◌≡◌, ℕ, ◌+◌, ◌*◌, ◌<◌, ◌≤◌, min, true, false, not, ◌&&◌, ◌||◌, ◌↔◌, IsTrue, MatchOption, ◌==◌, bit_and, count_ones, nat_lt};
ghost use Rattle.sets.specs.Counting.{CountingLaws, count};
ghost use Rattle.sets.specs.Members.{has, digit_of, Within, Lowest, subset, first_mask, first_member, empty_set, first_consoles, with_console, without_console, union_set, intersection_set, difference_set};

// The consoles are numbered below this.
const CONSOLES: usize = 32;

/// A set of consoles.
// Clauses read its mask: seen as a bare number it would say no more, and lose its name where tables hold sets.
#[derive(Clone, Copy, PartialEq, Eq, Debug)]
pub struct ConsoleSet {
    mask: u32,
}

// The digit of a console in a mask: 0 for a number that no console has.
fn digit(console: usize) -> u32
    ensures { result ≡ digit_of console }
{
    if console < CONSOLES { 1 << console } else { 0 }
}

// The digits of all consoles below `n`.
fn digits_below(n: usize) -> u32
    ensures { result ≡ first_mask n }
{
    if n < CONSOLES { (1 << n) - 1 } else { u32::MAX }
}

impl ConsoleSet {
    /// The set of no console.
    pub const fn empty() -> ConsoleSet
        ensures set { result ≡ empty_set }
        ensures members { (k : ℕ) → has result.mask k ≡ false }
        ensures size { count_ones result.mask ≡ 0 }
    {
        ConsoleSet { mask: 0 }
    }

    /// The consoles below `n`.
    pub fn first_n(n: usize) -> ConsoleSet
        ensures set { result ≡ first_consoles n }
        ensures members { (k : ℕ) → has result.mask k ≡ (nat_lt k n && nat_lt k 32) }
        ensures within { Within n result.mask }
        ensures size { count_ones result.mask ≡ min n 32 }
        ensures largest { (s : ConsoleSet) → Within n s.mask → count_ones s.mask ≤ n }
    {
        ConsoleSet {
            mask: digits_below(n),
        }
    }

    pub fn contains(self, console: usize) -> bool
        ensures member { result ≡ has self.mask console }
        ensures bounded { result ≡ true → console < 32 }
    {
        self.mask & digit(console) != 0
    }

    /// The set with `console`, if there is such a console.
    pub fn with(self, console: usize) -> ConsoleSet
        ensures set { result ≡ with_console self console }
        ensures members { (k : ℕ) → has result.mask k ≡ (has self.mask k || (k == console && nat_lt console 32)) }
        ensures raised { has self.mask console ≡ false → console < 32 → count_ones result.mask ≡ count_ones self.mask + 1 }
        ensures kept { has self.mask console ≡ true → result ≡ self }
        ensures beyond { 32 ≤ console → result ≡ self }
    {
        ConsoleSet {
            mask: self.mask | digit(console),
        }
    }

    /// The set without `console`.
    pub fn without(self, console: usize) -> ConsoleSet
        ensures set { result ≡ without_console self console }
        ensures members { (k : ℕ) → has result.mask k ≡ (has self.mask k && not (k == console)) }
        ensures lowered { has self.mask console ≡ true → count_ones result.mask + 1 ≡ count_ones self.mask }
        ensures kept { has self.mask console ≡ false → result ≡ self }
        ensures beyond { 32 ≤ console → result ≡ self }
    {
        ConsoleSet {
            mask: self.mask & !digit(console),
        }
    }

    pub fn union(self, other: ConsoleSet) -> ConsoleSet
        ensures set { result ≡ union_set self other }
        ensures members { (k : ℕ) → has result.mask k ≡ (has self.mask k || has other.mask k) }
        ensures sizes { count_ones result.mask + count_ones (bit_and self.mask other.mask) ≡ count_ones self.mask + count_ones other.mask }
    {
        ConsoleSet {
            mask: self.mask | other.mask,
        }
    }

    pub fn intersection(self, other: ConsoleSet) -> ConsoleSet
        ensures set { result ≡ intersection_set self other }
        ensures members { (k : ℕ) → has result.mask k ≡ (has self.mask k && has other.mask k) }
        ensures counted { count_ones result.mask ≡ count 32 (λ k. has self.mask k && has other.mask k) }
        ensures quorums { (n t q : ℕ) → Within n self.mask → Within n other.mask → q ≤ count_ones self.mask → q ≤ count_ones other.mask → n + t < 2 * q → t < count_ones result.mask }
    {
        ConsoleSet {
            mask: self.mask & other.mask,
        }
    }

    /// The members of this set that are not in the other.
    pub fn difference(self, other: ConsoleSet) -> ConsoleSet
        ensures set { result ≡ difference_set self other }
        ensures members { (k : ℕ) → has result.mask k ≡ (has self.mask k && not (has other.mask k)) }
        ensures sizes { count_ones result.mask + count_ones (bit_and self.mask other.mask) ≡ count_ones self.mask }
    {
        ConsoleSet {
            mask: self.mask & !other.mask,
        }
    }

    pub fn is_subset(self, other: ConsoleSet) -> bool
        ensures answer { result ≡ subset self.mask other.mask }
        ensures members { IsTrue result ↔ ((k : ℕ) → has self.mask k ≡ true → has other.mask k ≡ true) }
        ensures size { result ≡ true → count_ones self.mask ≤ count_ones other.mask }
        ensures whole { result ≡ true → count_ones other.mask ≤ count_ones self.mask → self ≡ other }
    {
        self.mask & other.mask == self.mask
    }

    pub fn is_empty(self) -> bool
        ensures answer { result ≡ (self.mask == 0) }
        ensures members { IsTrue result ↔ ((k : ℕ) → has self.mask k ≡ false) }
        ensures size { IsTrue result ↔ (count_ones self.mask ≡ 0) }
    {
        self.mask == 0
    }

    /// How many consoles the set has.
    pub fn len(self) -> usize
        ensures size { result ≡ count_ones self.mask }
        ensures counted { result ≡ count 32 (has self.mask) }
        ensures bounded { result ≤ 32 }
        ensures laws { CountingLaws }
    {
        // `as`, since no `From` widens a `u32` to `usize`, and a `TryFrom` would answer an error that cannot come.
        self.mask.count_ones() as usize
    }

    /// The lowest console of the set.
    pub fn first(self) -> Option<usize>
        ensures answer { result ≡ first_member self.mask }
        ensures lowest { MatchOption result (self ≡ empty_set) (λ k. (k < 32) × Lowest self.mask k) }
    {
        if self.is_empty() {
            None
        } else {
            // `as`, as in `len`.
            Some(self.mask.trailing_zeros() as usize)
        }
    }
}
