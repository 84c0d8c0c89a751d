// What a card is made of and answers.
ghost use Rattle.std.specs.Prelude.{◌≡◌, ◌≤◌, ◌↔◌, IsTrue, length};
ghost use Rattle.floor.specs.Cards.{card_bytes, card_planned, card_refusal, same_card, same_card_equivalence};
ghost use Rattle.floor.specs.Places.{filled};
ghost use Rattle.floor.specs.Refusals.{answer};

use super::{Card, CardPlan, MAX_CARD_LEN};
use crate::payload::Payload;
use crate::refusal::Refusal;

impl Card {
    pub fn plan(bytes: &[u8]) -> Result<CardPlan, Refusal>
        ensures { card_planned result ≡ answer (card_refusal bytes.now) bytes.now }
    {
        let len = bytes.len();
        if !(1..=MAX_CARD_LEN).contains(&len) {
            return Err(Refusal::OutOfRange);
        }
        Ok(CardPlan {
            card: Card {
                places: padded(bytes),
                len,
            },
        })
    }

    // No `From`, since making in two calls, `plan` and `new`, is a rule of the project.
    pub fn new(plan: CardPlan) -> Card
        ensures { result ≡ plan.card }
    {
        plan.card
    }

    pub fn as_bytes(&self) -> &[u8]
        ensures bytes { result.now ≡ card_bytes self.now }
        ensures some { 1 ≤ length result.now }
        ensures fits { length result.now ≤ 16 }
    {
        &self.places[..self.len]
    }
}

// The bytes, and zeros behind them.
fn padded(bytes: &[u8]) -> [u8; MAX_CARD_LEN]
    requires { length bytes.now ≤ 16 }
    ensures { result ≡ filled bytes.now }
{
    let mut places = [0; MAX_CARD_LEN];
    places[..bytes.len()].copy_from_slice(bytes);
    places
}

// Two cards are alike when their bytes are the same.
impl Payload for Card {
    ghost similar = { same_card };

    ghost equivalence = { same_card_equivalence };

    fn alike(&self, other: &Card) -> bool
        ensures tested { result ≡ same_card self.now other.now }
        ensures equal { IsTrue result ↔ (card_bytes self.now ≡ card_bytes other.now) }
        ensures same { IsTrue result ↔ (self.now ≡ other.now) }
    {
        self.as_bytes() == other.as_bytes()
    }
}
