ghost use Rattle.std.specs.Prelude.{List, [], ℕ, OnOk, OnErr};

/// The sink takes no more.
#[derive(Clone, Copy, PartialEq, Eq, Debug)]
pub struct Closed;

/// Where the texts of a page go. Each sink says what it is to it that a text was taken, that it rested, and
/// that it failed.
pub trait Sink {
    /// It took this text.
    ghost takes: { Self → List ℕ → Self → Type 0 };

    /// It rested.
    ghost rests: { Self → Self → Type 0 };

    /// It failed at this text, of which it took all, a part or nothing; at a rest the text is empty.
    ghost fails: { Self → List ℕ → Self → Type 0 };

    /// Takes a text.
    fn take(&mut self, text: &[u8]) -> Result<(), Closed>
        ensures taken { OnOk result (takes self.old text.now self.new) }
        ensures failed { OnErr result (fails self.old text.now self.new) };

    /// Some time has passed: what was held back may be passed on.
    fn rest(&mut self) -> Result<(), Closed>
        ensures rested { OnOk result (rests self.old self.new) }
        ensures failed { OnErr result (fails self.old [] self.new) };
}
