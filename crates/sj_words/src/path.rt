//! The path of a swap file.

ghost use Rattle.std.specs.Prelude.{◌≡◌, IfOk};

use std::alloc::{AllocError, Global};
use std::marker::Model;

/// A path as text. Contracts see its bytes.
#[derive(Debug, Drop)]
pub struct SwapPath {
    text: String,
}

impl Model for SwapPath {
    ghost use Rattle.std.specs.Prelude.{ℕ, List};
    ghost use Rattle.std.specs.String.{string_bytes};

    ghost Value = { List ℕ };

    ghost view = { λ p. string_bytes p.text };
}

impl SwapPath {
    /// A copy of the text, in its time and memory.
    pub fn of(alloc: Global, text: &str) -> Result<SwapPath, AllocError>
        ensures { IfOk result (λ path. path ≡ text.now) }
    {
        Ok(SwapPath {
            text: String::from_str(alloc, text)?,
        })
    }

    /// The text, in constant time.
    pub fn as_str(&self) -> &str
        ensures { result.now ≡ self.now }
    {
        self.text.as_str()
    }
}
