//! Scalars, lists, pairs and flags: the nodes of a tree that a schema asks for.

ghost use Rattle.std.specs.Prelude.{◌≡◌, ◌≤◌, IfOk, length};
ghost use Rattle.input_schema.specs.Nodes as spec;
ghost use Rattle.input_schema.specs.Readings.{Gives, lent, lent_pair};

use crate::faults::{File, InputKind, SchemaError, fault};
use yaml_text::{Text, Tree, Value};

/// The text of a scalar.
///
/// # Errors
///
/// Shape, where the node is no scalar.
pub fn scalar(file: File, node: &Tree) -> Result<&Text, SchemaError>
    ensures { Gives (spec.scalar file node.now) (lent result) }
{
    match &node.value {
        Value::Scalar(text) => Ok(text),
        Value::Empty | Value::List(_) | Value::Map(_) => Err(fault(
            file,
            node.line,
            InputKind::Shape,
        )),
    }
}

/// The items of a list of any length.
///
/// # Errors
///
/// Shape, where the node is no list.
pub fn list(file: File, node: &Tree) -> Result<&[Tree], SchemaError>
    ensures { Gives (spec.list file node.now) (lent result) }
{
    match &node.value {
        Value::List(nodes) => Ok(nodes.as_slice()),
        Value::Empty | Value::Scalar(_) | Value::Map(_) => Err(fault(
            file,
            node.line,
            InputKind::Shape,
        )),
    }
}

/// The items of a list that has from `least` to `most` of them.
///
/// # Errors
///
/// Shape, where the node is no list, and then OutOfRange, where it has fewer or more items.
pub fn items(file: File, node: &Tree, least: usize, most: usize) -> Result<&[Tree], SchemaError>
    ensures items { Gives (spec.items file node.now least most) (lent result) }
    ensures few { IfOk result (λ nodes. (least ≤ length nodes.now) × (length nodes.now ≤ most)) }
{
    let nodes = list(file, node)?;
    if least <= nodes.len() && nodes.len() <= most {
        Ok(nodes)
    } else {
        Err(fault(file, node.line, InputKind::OutOfRange))
    }
}

/// The two items of a list.
///
/// # Errors
///
/// Shape, where the node is no list, or has another number of items.
pub fn pair(file: File, node: &Tree) -> Result<(&Tree, &Tree), SchemaError>
    ensures { Gives (spec.pair file node.now) (lent_pair result) }
{
    let nodes = list(file, node)?;
    if nodes.len() == 2 {
        Ok((&nodes[0], &nodes[1]))
    } else {
        Err(fault(file, node.line, InputKind::Shape))
    }
}

/// A flag, which is the text `true`.
///
/// # Errors
///
/// Shape, where the node is no scalar, and then RunFlag, where it is another text.
pub fn flag(file: File, node: &Tree) -> Result<(), SchemaError>
    ensures { Gives (spec.flag file node.now) result }
{
    let text = scalar(file, node)?;
    if text.as_str() == "true" {
        Ok(())
    } else {
        Err(fault(file, node.line, InputKind::RunFlag))
    }
}
