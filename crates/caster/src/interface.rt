// The interface of all casters.
ghost use Rattle.std.specs.Prelude.{◌≡◌, ℕ, Option};
ghost use Rattle.floor.specs.Refusals.{Rising};
ghost use Rattle.caster.specs.Meanings.{Meaning, Answered, cast_checks, cast_question, delivery_question};
ghost use Rattle.caster.specs.Laws.{Laws, Lasting};

use crate::delivery::Delivery;
use crate::floor_figures::FloorFigures;
use floor::Refusal;
use quorum::Figures;

/// A caster carries payload numbers between the honest consoles of one floor.
pub trait Caster {
    /// What may happen on the way: each caster has its own kind.
    type Event;

    ghost meaning: { Self → Meaning };

    // What a cast of a console, in a session, of a number, answers and leaves.
    ghost casted: { Self → ℕ → ℕ → ℕ → Answered → Self → Type 0 };

    // What an event answers and leaves.
    ghost stepped: { Self → Self.Event → Answered → Self → Type 0 };

    ghost offered: { Self → Option Self.Event };

    // Each implementation proves that it keeps the laws.
    ghost laws: { Laws meaning casted stepped offered };

    // Both hold the same memory that the caller lent.
    ghost loan: { Self → Self → Type 0 };

    ghost lasting: { Lasting loan };

    /// The console casts the number in the session.
    // The three stay apart here, and the two of a question: a struct would be built for the one call.
    fn cast(
        &mut self,
        console: usize,
        session: usize,
        number: usize,
    ) -> Result<Option<Delivery>, Refusal>
        ensures casted { casted self.old console session number result self.new }
        ensures rising { Rising (cast_checks (meaning self.old) console session number) }
        ensures lent { loan self.old self.new };

    /// The event happens.
    fn step(&mut self, event: Self::Event) -> Result<Option<Delivery>, Refusal>
        ensures stepped { stepped self.old event result self.new }
        ensures lent { loan self.old self.new };

    /// The event that hands over some copy under way, if there is one.
    fn offer(&self) -> Option<Self::Event>
        ensures { result ≡ offered self.now };

    /// What the console has cast in the session.
    fn cast_at(&self, console: usize, session: usize) -> Result<Option<usize>, Refusal>
        ensures { result ≡ cast_question (meaning self.now) console session };

    /// What the console has delivered in the session.
    fn delivered_at(&self, console: usize, session: usize) -> Result<Option<usize>, Refusal>
        ensures { result ≡ delivery_question (meaning self.now) console session };

    fn steps_left(&self) -> usize
        ensures { result ≡ (meaning self.now).steps };

    fn is_quiet(&self) -> bool
        ensures { result ≡ (meaning self.now).quiet };

    fn figures(&self) -> Figures
        ensures { result ≡ (meaning self.now).figures };

    fn floor(&self) -> FloorFigures
        ensures { result ≡ (meaning self.now).floor };
}
