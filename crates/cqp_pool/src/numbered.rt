//! Items that have a number. Contracts count items by their numbers alone.
ghost use Rattle.std.specs.Prelude.{◌≡◌, ℕ};

/// An item that has a number. Two items may have the same one.
pub trait Numbered: Drop {
    ghost number: { Self → ℕ };

    fn number(&self) -> u32
        ensures { result ≡ number self.now };
}

/// A number is its own.
impl Numbered for u32 {
    ghost number = { λ x. x };

    fn number(&self) -> u32 {
        *self
    }
}
