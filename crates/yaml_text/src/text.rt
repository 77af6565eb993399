//! The text of a scalar or a key.

ghost use Rattle.std.specs.Prelude.{◌≡◌, ◌<◌, ◌^◌, [], length, IfOk};
ghost use Rattle.std.specs.Str.{IsAscii};

use out_of_memory::OutOfMemory;
use std::alloc::Global;
use std::marker::Model;

/// An ASCII text of fewer than 2^32 bytes. Contracts see it as the list of its bytes.
#[derive(Debug, Drop)]
pub struct Text {
    text: String,
}

impl Model for Text {
    ghost use Rattle.std.specs.Prelude.{ℕ, List, ◌<◌, ◌^◌, length};
    ghost use Rattle.std.specs.Coded.{coded_ℕ, coded_list};
    ghost use Rattle.std.specs.String.{string_bytes};
    ghost use Rattle.std.specs.Str.{IsAscii};

    ghost Value = { List ℕ };

    ghost coded = { coded_list coded_ℕ };

    ghost view = { λ t. string_bytes t.text };

    ghost invariant = { λ t. IsAscii (string_bytes t.text) × (length (string_bytes t.text) < 2 ^ 32) };
}

impl Text {
    /// The text without a byte.
    pub fn empty(alloc: Global) -> Text
        ensures { result ≡ [] }
    {
        Text {
            text: String::new(alloc),
        }
    }

    /// A text of its own with the bytes of `text`, which is ASCII and shorter than 2^32 bytes.
    ///
    /// # Errors
    ///
    /// `OutOfMemory` where memory was refused.
    pub fn new(alloc: Global, text: &str) -> Result<Text, OutOfMemory>
        requires ascii { IsAscii text.now }
        requires short { length text.now < 2 ^ 32 }
        ensures { IfOk result (λ made. made ≡ text.now) }
    {
        Ok(Text {
            text: String::from_str(alloc, text)?,
        })
    }

    /// Its bytes.
    pub fn as_str(&self) -> &str
        ensures bytes { result.now ≡ self.now }
        ensures ascii { IsAscii self.now }
        ensures short { length self.now < 2 ^ 32 }
    {
        self.text.as_str()
    }
}
