//! The text of a name.

ghost use Rattle.std.specs.Prelude.{◌≡◌};

use std::marker::Model;

/// The bytes of a name, borrowed from the text that it stands in. Contracts see the list of the
/// bytes.
#[derive(Debug, Drop)]
pub struct NameText<'a> {
    bytes: &'a [u8],
}

impl<'a> Model for NameText<'a> {
    ghost use Rattle.std.specs.Prelude.{ℕ, List};

    ghost Value = { List ℕ };

    ghost view = { λ s. s.bytes.now };
}

impl<'a> NameText<'a> {
    /// The name with these bytes.
    pub fn new(bytes: &'a [u8]) -> NameText<'a>
        ensures { result ≡ bytes.now }
    {
        NameText { bytes }
    }

    /// Lends the bytes.
    pub fn as_slice(&self) -> &[u8]
        ensures { result.now ≡ self.now }
    {
        self.bytes
    }
}
