//! Names that are declared, and references to them.

ghost use Rattle.std.specs.Prelude.{◌≡◌, ◌<◌, ◌++◌, MatchOption, IfOk, OnOk, IfErr, IfSome, length, true, false};
ghost use Rattle.text_tokens.specs.Names.{is_among};
ghost use Rattle.rational_expressions.specs.Values.{place_of};
ghost use Rattle.input_schema.specs.Names as spec;
ghost use Rattle.input_schema.specs.declared.faults.SchemaError.TheVariants as schema_error;
ghost use Rattle.input_schema.specs.Readings.{Gives};

use crate::faults::{File, InputKind, SchemaError, fault};
use crate::nodes::scalar;
use std::alloc::Global;
use text_tokens::Name;
use yaml_text::Tree;

/// The place of the first of these names with this text, counted from 0, if there is one.
pub fn place_among(names: &[Name], text: &[u8]) -> Option<usize>
    ensures place { MatchOption result (is_among names.now text.now ≡ false) (λ place. (is_among names.now text.now ≡ true) × (place ≡ place_of names.now text.now)) }
    ensures within { IfSome result (λ place. place < length names.now) }
{
    for i in 0..names.len() {
        if names[i].as_str().as_bytes() == text {
            return Some(i);
        }
    }
    None
}

/// Whether this is the name of the dimension or of the modulus.
fn is_reserved(text: &str) -> bool
    ensures { result ≡ spec.is_reserved text.now }
{
    text == "d" || text == "prime"
}

/// A scalar that may be declared as a name.
///
/// # Errors
///
/// Shape, where the node is no scalar; then BadName, where its text isn't a name; then ReservedName,
/// where it is `d` or `prime`.
pub fn name(alloc: Global, file: File, node: &Tree) -> Result<Name, SchemaError>
    ensures { Gives (spec.name file node.now) result }
{
    let text = scalar(file, node)?.as_str();
    let Some(name) = Name::new(alloc, text)? else {
        return Err(fault(file, node.line, InputKind::BadName));
    };
    if is_reserved(text) {
        return Err(fault(file, node.line, InputKind::ReservedName));
    }
    Ok(name)
}

/// Tests that a name isn't among the declared ones. Where names are declared in several lists, it is
/// called for each of them.
///
/// # Errors
///
/// DuplicateName at this line, where it is.
pub fn fresh(file: File, line: u32, declared: &[Name], name: &Name) -> Result<(), SchemaError>
    ensures { Gives (spec.fresh file line declared.now name.now) result }
{
    match place_among(declared, name.as_str().as_bytes()) {
        Some(_) => Err(fault(file, line, InputKind::DuplicateName)),
        None => Ok(()),
    }
}

/// A scalar that declares a name which isn't among these.
///
/// # Errors
///
/// As `name`, and then DuplicateName.
pub fn new_name(
    alloc: Global,
    file: File,
    node: &Tree,
    declared: &[Name],
) -> Result<Name, SchemaError>
    ensures { Gives (spec.new_name file node.now declared.now) result }
{
    let name = name(alloc, file, node)?;
    fresh(file, node.line, declared, &name)?;
    Ok(name)
}

/// A scalar that names one of these, as its place among them, counted from 0.
///
/// # Errors
///
/// Shape, where the node is no scalar; then BadName, where its text isn't a name; then UnknownName, where
/// it is none of these.
pub fn reference(
    alloc: Global,
    file: File,
    node: &Tree,
    declared: &[Name],
) -> Result<usize, SchemaError>
    ensures place { Gives (spec.reference file node.now declared.now) result }
    ensures within { IfOk result (λ place. place < length declared.now) }
{
    let text = scalar(file, node)?.as_str();
    if Name::new(alloc, text)?.is_none() {
        return Err(fault(file, node.line, InputKind::BadName));
    }
    match place_among(declared, text.as_bytes()) {
        Some(place) => Ok(place),
        None => Err(fault(file, node.line, InputKind::UnknownName)),
    }
}

/// A copy of a name.
fn copied(alloc: Global, name: &Name) -> Result<Name, SchemaError>
    ensures copy { IfOk result (λ copy. copy ≡ name.now) }
    ensures err { IfErr result (λ e. e ≡ schema_error.OutOfMemory) }
{
    match Name::new(alloc, name.as_str())? {
        Some(copy) => Ok(copy),
        None => unreachable!(),
    }
}

/// Adds copies of names to a list.
fn append(alloc: Global, names: &mut Vec<Name>, more: &[Name]) -> Result<(), SchemaError>
    ensures names { OnOk result (names.new.items ≡ names.old.items ++ more.now) }
    ensures err { IfErr result (λ e. e ≡ schema_error.OutOfMemory) }
{
    for name in more {
        names.push(copied(alloc, name)?)?;
    }
    Ok(())
}

/// Copies of two lists of names, one behind the other.
///
/// # Errors
///
/// `OutOfMemory` where memory was refused, and no other.
pub fn joined(alloc: Global, first: &[Name], second: &[Name]) -> Result<Vec<Name>, SchemaError>
    ensures names { IfOk result (λ names. names.items ≡ first.now ++ second.now) }
    ensures err { IfErr result (λ e. e ≡ schema_error.OutOfMemory) }
{
    let mut names = Vec::new(alloc);
    append(alloc, &mut names, first)?;
    append(alloc, &mut names, second)?;
    Ok(names)
}
