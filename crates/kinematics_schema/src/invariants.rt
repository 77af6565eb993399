//! The invariants.

ghost use Rattle.std.specs.Prelude.{◌≡◌, ◌<◌, ◌≤◌, [], None, length, codes, IfOk, IfSome};
ghost use Rattle.input_schema.specs.Readings.{Answers, Gives, IfGiven};
ghost use Rattle.input_schema.specs.Maps.{value_of};
ghost use Rattle.kinematics_schema.specs.KinematicsFile as spec;
ghost use Rattle.kinematics_schema.specs.KinematicsFile.{ReadsInvariants, ReadsSymbol};

use input_schema::{File, SchemaError, fresh, items, name, number, optional, pair, reference};
use sqlite_items::Items;
use std::alloc::Global;
use text_tokens::Name;
use yaml_text::{Pair, Tree};

/// An invariant, which is none of the names that are declared, and a number that means nothing.
fn read_invariant(
    alloc: Global,
    externals: &[Name],
    found: &[Name],
    node: &Tree,
) -> Result<Name, SchemaError>
    ensures { Gives (spec.invariant externals.now found.now node.now) result }
{
    let (first, second) = pair(File::Kinematics, node)?;
    let name = name(alloc, File::Kinematics, first)?;
    fresh(File::Kinematics, first.line, externals, &name)?;
    fresh(File::Kinematics, first.line, found, &name)?;
    number(File::Kinematics, second, 0, 255)?;
    Ok(name)
}

/// The invariants of a list of 0 to 32 of them.
fn read_list(alloc: Global, externals: &[Name], node: &Tree) -> Result<Items<Name>, SchemaError>
    ensures reading { Answers (ReadsInvariants externals.now node.now) result }
    ensures few { IfOk result (λ invariants. length invariants ≤ 32) }
{
    let nodes = items(File::Kinematics, node, 0, 32)?;
    let mut invariants = Items::new(alloc);
    for item in nodes {
        let invariant = read_invariant(alloc, externals, invariants.as_slice(), item)?;
        invariants.push(invariant)?;
    }
    Ok(invariants)
}

/// The invariants, if the map names some.
pub fn read_invariants(
    alloc: Global,
    pairs: &[Pair],
    externals: &[Name],
) -> Result<Items<Name>, SchemaError>
    ensures reading { Answers (IfGiven (value_of pairs.now (codes "kinematic_invariants")) [] (ReadsInvariants externals.now)) result }
    ensures few { IfOk result (λ invariants. length invariants ≤ 32) }
{
    match optional(pairs, "kinematic_invariants") {
        Some(node) => read_list(alloc, externals, node),
        None => Ok(Items::new(alloc)),
    }
}

/// The place of an invariant that the file names.
fn read_place(alloc: Global, invariants: &[Name], node: &Tree) -> Result<Option<usize>, SchemaError>
    ensures reading { Answers (ReadsSymbol invariants.now node.now) result }
    ensures within { IfOk result (λ symbol. IfSome symbol (λ place. place < length invariants.now)) }
{
    let place = reference(alloc, File::Kinematics, node, invariants)?;
    Ok(Some(place))
}

/// The place of the invariant that is replaced by 1, if the map names one.
pub fn read_symbol(
    alloc: Global,
    pairs: &[Pair],
    invariants: &[Name],
) -> Result<Option<usize>, SchemaError>
    ensures reading { Answers (IfGiven (value_of pairs.now (codes "symbol_to_replace_by_one")) None (ReadsSymbol invariants.now)) result }
    ensures within { IfOk result (λ symbol. IfSome symbol (λ place. place < length invariants.now)) }
{
    match optional(pairs, "symbol_to_replace_by_one") {
        Some(node) => read_place(alloc, invariants, node),
        None => Ok(None),
    }
}
