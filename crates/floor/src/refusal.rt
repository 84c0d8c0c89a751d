// Why a call is refused. docs/model.md lists the cases.
ghost use Rattle.std.specs.Prelude.{◌≡◌};
ghost use Rattle.floor.specs.Refusals.{LowestAnswers, NumberedApart, number_of};

use thiserror::Error;

mod findings;

/// The numbers are part of the interface; some are not in use.
#[derive(Clone, Copy, PartialEq, Eq, Debug, Error)]
pub enum Refusal {
    #[error("a number is outside its range")]
    OutOfRange = 1,
    #[error("an honest console stands where a Byzantine one must, or the reverse")]
    WrongHonesty = 2,
    #[error("the session is entered already")]
    SessionTwice = 3,
    #[error("the thresholds break a rule")]
    ThresholdRule = 4,
    #[error("too few places are supplied")]
    TooFewPlaces = 5,
    #[error("the list does not name each place once")]
    NotAPermutation = 6,
    #[error("the bundle bears an honest signature that was never made")]
    ForgedSignature = 7,
    #[error("the receipt is of another floor")]
    OtherFloor = 9,
    #[error("as many Byzantine consoles as allowed are marked")]
    ByzantineFull = 21,
    #[error("as many sessions as allowed are entered")]
    SessionsFull = 22,
    #[error("the payload list is full")]
    PayloadsFull = 23,
    #[error("a number was cast or broadcast there already")]
    AlreadyCast = 24,
    #[error("no such copy is under way")]
    NoSuchCopy = 25,
    #[error("as many copies of the message as allowed are lost")]
    LossesUsed = 26,
    #[error("the message holds nothing new to the receiver")]
    NothingNew = 27,
    #[error("the casters do not fit")]
    CastersMisfit = 28,
    #[error("nothing waits there")]
    NothingWaiting = 29,
    #[error("two honest consoles delivered different numbers")]
    Disagreement = 30,
}

impl Refusal {
    // A method and no `From`: callers ask for the number by name, and its clauses hold two theorems beside it.
    #[tactic(auto, using(crate::proofs::Checks::lowest_answers))]
    pub fn number(self) -> u8
        ensures value { result ≡ number_of self }
        ensures apart { NumberedApart }
        ensures lowest { LowestAnswers }
    {
        self as u8
    }
}
