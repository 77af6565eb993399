//! Scalars that write a momentum or a value over declared names.

ghost use Rattle.std.specs.Prelude.{◌≡◌, ◌<◌, ◌^◌, length, IfOk};
ghost use Rattle.input_schema.specs.Texts.{MomentumText, ValueText, ReadsMomentum, ReadsValue};
ghost use Rattle.input_schema.specs.Readings.{Answers};

use crate::faults::{File, InputKind, SchemaError, fault};
use crate::nodes::scalar;
use momentum_sums::{Momentum, read_momentum};
use rational_expressions::{Expression, read_value};
use std::alloc::Global;
use text_tokens::{Name, TextError};
use yaml_text::Tree;

/// The momentum that a text on this line writes over these names.
fn momentum_text(
    alloc: Global,
    file: File,
    line: u32,
    names: &[Name],
    text: &str,
) -> Result<Momentum, SchemaError>
    requires size { length text.now < 2 ^ 32 }
    requires few { length names.now < 2 ^ 32 }
    ensures reading { Answers (MomentumText file line names.now text.now) result }
    ensures counted { IfOk result (λ momentum. length momentum ≡ length names.now) }
{
    match read_momentum(alloc, text, names) {
        Ok(momentum) => Ok(momentum),
        Err(TextError::Fault(found)) => Err(fault(file, line, InputKind::of_text(found.kind))),
        Err(TextError::OutOfMemory) => Err(SchemaError::OutOfMemory),
    }
}

/// The value that a text on this line writes over these names.
fn value_text(
    alloc: Global,
    file: File,
    line: u32,
    names: &[Name],
    text: &str,
) -> Result<Expression, SchemaError>
    requires size { length text.now < 2 ^ 32 }
    requires few { length names.now < 2 ^ 32 }
    ensures { Answers (ValueText file line names.now text.now) result }
{
    match read_value(alloc, text, names) {
        Ok(value) => Ok(value),
        Err(TextError::Fault(found)) => Err(fault(file, line, InputKind::of_text(found.kind))),
        Err(TextError::OutOfMemory) => Err(SchemaError::OutOfMemory),
    }
}

/// The momentum that a scalar writes over these names: one coefficient for each of them.
///
/// # Errors
///
/// Shape, where the node is no scalar, and then the kind of the text's first fault: BadMomentum,
/// UnknownName, NumberTooWide or OutOfRange.
pub fn momentum(
    alloc: Global,
    file: File,
    node: &Tree,
    names: &[Name],
) -> Result<Momentum, SchemaError>
    requires { length names.now < 2 ^ 32 }
    ensures reading { Answers (ReadsMomentum file node.now names.now) result }
    ensures counted { IfOk result (λ momentum. length momentum ≡ length names.now) }
{
    let text = scalar(file, node)?;
    momentum_text(alloc, file, node.line, names, text.as_str())
}

/// The value that a scalar writes over these names.
///
/// # Errors
///
/// Shape, where the node is no scalar, and then the kind of the text's first fault: BadExpression,
/// UnknownName, NumberTooWide, OutOfRange or TooDeep.
pub fn value(
    alloc: Global,
    file: File,
    node: &Tree,
    names: &[Name],
) -> Result<Expression, SchemaError>
    requires { length names.now < 2 ^ 32 }
    ensures { Answers (ReadsValue file node.now names.now) result }
{
    let text = scalar(file, node)?;
    value_text(alloc, file, node.line, names, text.as_str())
}
