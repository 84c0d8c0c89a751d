// Which places of a table have copies under way, so that the next copy is found without a walk.
ghost use Rattle.std.specs.Prelude.{◌≡◌, ◌<◌, IfSome, ◌==◌};
ghost use Rattle.sets.specs.Members.{first_member};
ghost use Rattle.plain_session.specs.Agendas.{nothing, noted};

use sets::ConsoleSet;

/// The places, below 32, at which something is under way.
#[derive(Clone, Copy, PartialEq, Eq, Debug)]
pub struct Agenda {
    pub places: ConsoleSet,
}

impl Agenda {
    /// Nothing is under way.
    pub const fn empty() -> Agenda
        ensures { result ≡ nothing }
    {
        Agenda {
            places: ConsoleSet::empty(),
        }
    }

    /// Something is under way at the place, or nothing any longer.
    pub fn noted(self, place: usize, busy: bool) -> Agenda
        ensures { result ≡ noted self place busy }
    {
        let places = if busy {
            self.places.with(place)
        } else {
            self.places.without(place)
        };
        Agenda { places }
    }

    /// The lowest place with something under way.
    pub fn first(self) -> Option<usize>
        ensures answered { result ≡ first_member self.places.mask }
        ensures bounded { IfSome result (λ place. place < 32) }
    {
        self.places.first()
    }

    pub fn is_empty(self) -> bool
        ensures { result ≡ (self.places.mask == 0) }
    {
        self.places.is_empty()
    }
}
