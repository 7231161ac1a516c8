ghost use Rattle.std.specs.Prelude.{◌≡◌, ℕ, Bool};

/// A test of numbers.
pub trait NumberTest {
    /// Whether a number passes.
    ghost passes: { Self → ℕ → Bool };

    fn passes(&self, number: u64) -> bool
        ensures { result ≡ passes self.now number };
}
