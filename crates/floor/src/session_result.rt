// The result of a session at a rowing or cycling console.
ghost use Rattle.std.specs.Prelude.{◌≡◌, ◌↔◌, IsTrue};
ghost use Rattle.floor.specs.Payloads.{same_result, same_result_equivalence};

use crate::payload::Payload;

#[derive(Clone, Copy, PartialEq, Eq, Debug)]
pub struct SessionResult {
    pub metres: u32,
    pub tenths: u32,
    pub strokes: u16,
}

// Two results are alike when all three numbers are equal.
impl Payload for SessionResult {
    ghost similar = { same_result };

    ghost equivalence = { same_result_equivalence };

    fn alike(&self, other: &SessionResult) -> bool
        ensures tested { result ≡ same_result self.now other.now }
        ensures equal { IsTrue result ↔ (self.now ≡ other.now) }
    {
        self == other
    }
}
