//! Names of momenta and invariants.

ghost use Rattle.std.specs.Prelude.{◌≡◌, IfOk};
ghost use Rattle.std.specs.Option.{SomeIff};
ghost use Rattle.text_tokens.specs.Names.{is_name, IsName};
ghost use Rattle.text_tokens.specs.Tokens.{is_name_byte};
ghost use Rattle.std.specs.List.{list_all};

use crate::tokens::{is_letter, is_name_byte};
use out_of_memory::OutOfMemory;
use std::alloc::Global;
use std::marker::Model;

/// A name: 1 to 32 bytes, a letter and then letters, digits or `_`. Contracts see its bytes.
#[derive(Debug, Drop)]
pub struct Name {
    text: String,
}

impl Model for Name {
    ghost use Rattle.std.specs.Prelude.{ℕ, List};
    ghost use Rattle.std.specs.String.{string_bytes};
    ghost use Rattle.text_tokens.specs.Names.{IsName};

    ghost Value = { List ℕ };

    ghost view = { λ n. string_bytes n.text };

    ghost invariant = { λ n. IsName (string_bytes n.text) };
}

fn are_name_bytes(bytes: &[u8]) -> bool
    ensures { result ≡ list_all is_name_byte bytes.now }
{
    bytes.iter().all(|byte| is_name_byte(*byte))
}

/// Whether the bytes are a name: 1 to 32 of them, a letter and then letters, digits or `_`.
pub fn is_name(bytes: &[u8]) -> bool
    ensures { result ≡ is_name bytes.now }
{
    1 <= bytes.len() && bytes.len() <= 32 && is_letter(bytes[0]) && are_name_bytes(bytes)
}

impl Name {
    /// The name with this text. None exactly where the text isn't a name.
    pub fn new(alloc: Global, text: &str) -> Result<Option<Name>, OutOfMemory>
        ensures { IfOk result (λ name. SomeIff name (IsName text.now) text.now) }
    {
        if !is_name(text.as_bytes()) {
            return Ok(None);
        }
        Ok(Some(Name {
            text: String::from_str(alloc, text)?,
        }))
    }

    /// Its bytes.
    pub fn as_str(&self) -> &str
        ensures value { result.now ≡ self.now }
        ensures name { IsName self.now }
    {
        self.text.as_str()
    }
}
