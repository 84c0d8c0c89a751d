// The counts that a floor is fitted by.
ghost use Rattle.std.specs.Prelude.{◌≤◌};

mod calls;

use std::fmt;

/// The consoles of a floor, at most how many of them are Byzantine, and at most how many copies of a message are lost.
// Clauses read the three numbers: a view would be a record of the same three.
#[derive(Clone, Copy, PartialEq, Eq, Debug)]
pub struct Counts {
    consoles: usize,
    byzantine: usize,
    lost: usize,
    ghost some: { 1 ≤ consoles },
    ghost few: { consoles ≤ 32 },
    ghost byzantines: { byzantine ≤ consoles },
    ghost losses: { lost ≤ consoles },
}

impl fmt::Display for Counts {
    fn fmt<W: fmt::Write>(&self, f: &mut fmt::Formatter<W>) -> fmt::Result {
        let Counts {
            consoles,
            byzantine,
            lost,
        } = *self;
        write!(f, "n {consoles} t {byzantine} d {lost}")
    }
}
