// What sessions agree on: any type with a test of likeness that is an equivalence.
ghost use Rattle.std.specs.Prelude.{◌≡◌, Bool};
ghost use Rattle.floor.specs.Payloads.{Equivalence};

pub trait Payload {
    // The test, as a definition.
    ghost similar: { Self → Self → Bool };

    // Each implementation proves that the test is reflexive, symmetric and transitive.
    ghost equivalence: { Equivalence similar };

    fn alike(&self, other: &Self) -> bool
        ensures { result ≡ similar self.now other.now };
}
