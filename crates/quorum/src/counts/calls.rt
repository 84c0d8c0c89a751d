// Making counts, and what they answer.
ghost use Rattle.std.specs.Prelude.{◌≡◌};
ghost use Rattle.quorum.specs.Counts.{counts_answer, counts_made};

use super::Counts;

impl Counts {
    pub const MAX_CONSOLES: usize = 32;

    // Three numbers as they are handed in: a struct of unchecked ones would be built for this call alone.
    pub fn new(consoles: usize, byzantine: usize, lost: usize) -> Option<Counts>
        ensures { counts_made result ≡ counts_answer consoles byzantine lost }
    {
        if consoles < 1
            || consoles > Self::MAX_CONSOLES
            || byzantine > consoles
            || lost > consoles
        {
            return None;
        }
        Some(Counts {
            consoles,
            byzantine,
            lost,
        })
    }

    pub fn consoles(&self) -> usize
        ensures { result ≡ self.now.consoles }
    {
        self.consoles
    }

    pub fn max_byzantine(&self) -> usize
        ensures { result ≡ self.now.byzantine }
    {
        self.byzantine
    }

    pub fn max_lost(&self) -> usize
        ensures { result ≡ self.now.lost }
    {
        self.lost
    }
}
