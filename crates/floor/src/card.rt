// A card: 1 to 16 bytes.
ghost use Rattle.floor.specs.Places.{IsCard};

mod calls;

pub const MAX_CARD_LEN: usize = 16;

/// The card's bytes stand in the first `len` places, and zeros behind them.
// A card is `Copy`, which an `ArrayVec` is not. No model: whoever is handed a card knows how many bytes it has, and a model hides that from callers.
#[derive(Clone, Copy, PartialEq, Eq, Debug)]
pub struct Card {
    places: [u8; MAX_CARD_LEN],
    len: usize,
    ghost whole: { IsCard len places },
}

/// Bytes that make a card.
#[derive(Clone, Copy, PartialEq, Eq, Debug)]
pub struct CardPlan {
    card: Card,
}
