//! The external momenta and their conservation.

ghost use Rattle.std.specs.Prelude.{◌≡◌, ◌+◌, ◌≤◌, [], None, length, codes, remove, IfOk};
ghost use Rattle.input_schema.specs.Readings.{Answers, IfGiven};
ghost use Rattle.input_schema.specs.Maps.{value_of};
ghost use Rattle.kinematics_schema.specs.Independent.{HasCounts};
ghost use Rattle.kinematics_schema.specs.KinematicsFile.{ReadsNames, ReadsConserved, ReadsExternals};

use crate::content::{Conserved, without_place};
use input_schema::{File, SchemaError, items, momentum, new_name, optional, pair, reference};
use sqlite_items::Items;
use std::alloc::Global;
use text_tokens::Name;
use yaml_text::{Pair, Tree};

/// All external momenta, and the one that is a sum of the others.
#[derive(Drop)]
pub struct Externals {
    pub names: Items<Name>,
    pub conserved: Option<Conserved>,
}

/// The names of a list of 0 to 7 of them, behind those that are declared.
fn read_names(alloc: Global, declared: Items<Name>, node: &Tree) -> Result<Items<Name>, SchemaError>
    ensures reading { Answers (ReadsNames declared node.now) result }
    ensures few { IfOk result (λ names. length names ≤ length declared + 7) }
{
    let nodes = items(File::Kinematics, node, 0, 7)?;
    let mut names = declared;
    for item in nodes {
        let name = new_name(alloc, File::Kinematics, item, names.as_slice())?;
        names.push(name)?;
    }
    Ok(names)
}

/// The outgoing momenta, if there are any, behind the incoming ones.
fn read_outgoing(
    alloc: Global,
    pairs: &[Pair],
    incoming: Items<Name>,
) -> Result<Items<Name>, SchemaError>
    ensures reading { Answers (IfGiven (value_of pairs.now (codes "outgoing_momenta")) incoming (ReadsNames incoming)) result }
    ensures few { IfOk result (λ names. length names ≤ length incoming + 7) }
{
    match optional(pairs, "outgoing_momenta") {
        Some(node) => read_names(alloc, incoming, node),
        None => Ok(incoming),
    }
}

/// The conserved momentum, which is one of these, and its sum of the others.
fn read_conserved(
    alloc: Global,
    externals: &[Name],
    node: &Tree,
) -> Result<Option<Conserved>, SchemaError>
    requires { length externals.now ≤ 14 }
    ensures reading { Answers (ReadsConserved externals.now node.now) result }
    ensures counts { IfOk result (λ conserved. HasCounts conserved (length externals.now)) }
{
    let (first, second) = pair(File::Kinematics, node)?;
    let place = reference(alloc, File::Kinematics, first, externals)?;
    let others = without_place(alloc, place, externals)?;
    let image = momentum(alloc, File::Kinematics, second, others.as_slice())?;
    Ok(Some(Conserved { place, image }))
}

/// The conserved momentum, if the map names one.
fn read_conservation(
    alloc: Global,
    pairs: &[Pair],
    externals: &[Name],
) -> Result<Option<Conserved>, SchemaError>
    requires { length externals.now ≤ 14 }
    ensures reading { Answers (IfGiven (value_of pairs.now (codes "momentum_conservation")) None (ReadsConserved externals.now)) result }
    ensures counts { IfOk result (λ conserved. HasCounts conserved (length externals.now)) }
{
    match optional(pairs, "momentum_conservation") {
        Some(node) => read_conserved(alloc, externals, node),
        None => Ok(None),
    }
}

/// All external momenta and the conserved one, where the incoming ones are the value of this node.
pub fn read_externals(
    alloc: Global,
    pairs: &[Pair],
    incoming: &Tree,
) -> Result<Externals, SchemaError>
    ensures reading { Answers (ReadsExternals pairs.now incoming.now) result }
    ensures few { IfOk result (λ externals. length externals.names ≤ 14) }
    ensures counts { IfOk result (λ externals. HasCounts externals.conserved (length externals.names)) }
{
    let first = read_names(alloc, Items::new(alloc), incoming)?;
    let names = read_outgoing(alloc, pairs, first)?;
    let conserved = read_conservation(alloc, pairs, names.as_slice())?;
    Ok(Externals { names, conserved })
}
