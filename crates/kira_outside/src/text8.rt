//! A text of a name, which owns its bytes.

ghost use Rattle.std.specs.Prelude.{◌≡◌, IfOk};

use out_of_memory::OutOfMemory;
use std::alloc::Global;
use std::marker::Model;

/// A UTF-8 text, seen as its bytes.
#[derive(Drop)]
pub struct Text8 {
    text: String,
}

impl Model for Text8 {
    ghost use Rattle.std.specs.Prelude.{List, ℕ};
    ghost use Rattle.std.specs.String.{string_bytes};

    ghost Value = { List ℕ };

    ghost view = { λ text. string_bytes text.text };
}

impl Text8 {
    /// A copy of this text.
    pub fn new(alloc: Global, text: &str) -> Result<Text8, OutOfMemory>
        ensures { IfOk result (λ copy. copy ≡ text.now) }
    {
        let text = String::from_str(alloc, text)?;
        Ok(Text8 { text })
    }

    /// The text.
    pub fn as_str(&self) -> &str
        ensures { result.now ≡ self.now }
    {
        self.text.as_str()
    }
}
