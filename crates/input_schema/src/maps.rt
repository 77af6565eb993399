//! Maps with known keys.

ghost use Rattle.std.specs.Prelude.{◌≡◌, is_some, true, false};
ghost use Rattle.std.specs.Option.{option_copied};
ghost use Rattle.std.specs.Str.{bytes_eq};
ghost use Rattle.input_schema.specs.Maps as spec;
ghost use Rattle.input_schema.specs.Readings.{Gives, lent};

use crate::faults::{File, InputKind, SchemaError, fault};
use std::marker::Model;
use yaml_text::{Pair, Tree, Value};

/// A key that a map may have, and whether it must have it.
#[derive(Drop)]
pub struct Key<'a> {
    name: &'a str,
    is_needed: bool,
}

impl<'a> Model for Key<'a> {
    ghost use Rattle.input_schema.specs.Maps.{Key, key_code};

    ghost Value = { Key };

    ghost coded = { key_code };

    ghost use Rattle.input_schema.specs.KeptKeys.{seen_key};

    ghost view = { seen_key };
}

impl<'a> Key<'a> {
    /// A key that a map must have.
    pub fn needed(name: &'a str) -> Key<'a>
        ensures { result ≡ record { name = name.now; is_needed = true } }
    {
        Key {
            name,
            is_needed: true,
        }
    }

    /// A key that a map may lack.
    pub fn optional(name: &'a str) -> Key<'a>
        ensures { result ≡ record { name = name.now; is_needed = false } }
    {
        Key {
            name,
            is_needed: false,
        }
    }

    /// Its text.
    pub fn name(&self) -> &'a str
        ensures { result.now ≡ self.now.name }
    {
        self.name
    }

    /// Whether a map must have it.
    pub fn is_needed(&self) -> bool
        ensures { result ≡ self.now.is_needed }
    {
        self.is_needed
    }
}

/// The value of the first pair with this key, if there is one.
pub fn optional<'a>(pairs: &'a [Pair], key: &str) -> Option<&'a Tree>
    ensures { option_copied result ≡ spec.value_of pairs.now key.now }
{
    for pair in pairs {
        if pair.key.as_str().as_bytes() == key.as_bytes() {
            return Some(&pair.value);
        }
    }
    None
}

/// Whether a table has the key of a pair.
fn is_known(table: &[Key<'_>], pair: &Pair) -> bool
    ensures { result ≡ spec.is_known table.now pair.now }
{
    for key in table {
        if key.name().as_bytes() == pair.key.as_str().as_bytes() {
            return true;
        }
    }
    false
}

/// Tests that a table has the key of each pair.
fn known(file: File, table: &[Key<'_>], pairs: &[Pair]) -> Result<(), SchemaError>
    ensures { Gives (spec.known file table.now pairs.now) result }
{
    for pair in pairs {
        if !is_known(table, pair) {
            return Err(fault(file, pair.line, InputKind::UnknownKey));
        }
    }
    Ok(())
}

/// Whether a key must be there and isn't.
fn lacks(pairs: &[Pair], key: &Key<'_>) -> bool
    ensures { result ≡ spec.lacks pairs.now key.now }
{
    key.is_needed() && optional(pairs, key.name()).is_none()
}

/// Tests that each key is there that must be, in a map that begins on this line.
fn complete(file: File, line: u32, table: &[Key<'_>], pairs: &[Pair]) -> Result<(), SchemaError>
    ensures { Gives (spec.complete file line table.now pairs.now) result }
{
    for key in table {
        if lacks(pairs, key) {
            return Err(fault(file, line, InputKind::MissingKey));
        }
    }
    Ok(())
}

/// The pairs of a map.
fn pairs_of(file: File, node: &Tree) -> Result<&[Pair], SchemaError>
    ensures { Gives (spec.pairs_of file node.now) (lent result) }
{
    match &node.value {
        Value::Map(pairs) => Ok(pairs.as_slice()),
        Value::Empty | Value::Scalar(_) | Value::List(_) => Err(fault(
            file,
            node.line,
            InputKind::Shape,
        )),
    }
}

/// The pairs of a map that has all keys of the table which it must have, and no others than the table's.
///
/// The work grows with the number of pairs times the number of keys of the table, and stops at the
/// first key that the table doesn't have.
///
/// # Errors
///
/// Shape, where the node is no map; then UnknownKey at the line of the first key that the table doesn't
/// have; then MissingKey at the line of the map.
pub fn fields<'a>(file: File, table: &[Key<'_>], node: &'a Tree) -> Result<&'a [Pair], SchemaError>
    ensures { Gives (spec.fields file table.now node.now) (lent result) }
{
    let pairs = pairs_of(file, node)?;
    known(file, table, pairs)?;
    complete(file, node.line, table, pairs)?;
    Ok(pairs)
}

/// The value of a key that must be there, in a map that begins on this line.
///
/// # Errors
///
/// MissingKey, where it isn't there.
pub fn needed<'a>(
    file: File,
    line: u32,
    pairs: &'a [Pair],
    key: &str,
) -> Result<&'a Tree, SchemaError>
    ensures { Gives (spec.needed file line pairs.now key.now) (lent result) }
{
    match optional(pairs, key) {
        Some(node) => Ok(node),
        None => Err(fault(file, line, InputKind::MissingKey)),
    }
}
