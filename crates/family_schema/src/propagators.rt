//! The propagators of a family.

ghost use Rattle.std.specs.Prelude.{◌≡◌, ◌≤◌, length, All, IfOk};
ghost use Rattle.input_schema.specs.Readings.{Answers};
ghost use Rattle.kinematics_schema.specs.Independent.{independents, HasCounts};
ghost use Rattle.family_schema.specs.FamilyFile.{ReadsSquare, ReadsProduct, ReadsBilinear, ReadsPropagator, ReadsPropagators};
ghost use Rattle.family_schema.specs.Sound.{HasMomenta};

use crate::content::{Momenta, Propagator};
use crate::scope::Scope;
use input_schema::{File, InputKind, Key, SchemaError, fault, fields, list, needed, pair, value};
use kinematics_schema::read_independent;
use sqlite_items::Items;
use std::alloc::Global;
use yaml_text::{Tree, Value};

/// A momentum that is squared, and a mass.
fn read_square(alloc: Global, scope: &Scope, node: &Tree) -> Result<Propagator, SchemaError>
    requires few { length scope.now.names ≤ 20 }
    requires few_invariants { length scope.now.invariants ≤ 32 }
    requires counts { HasCounts scope.now.conserved (length scope.now.names) }
    ensures reading { Answers (ReadsSquare scope.now node.now) result }
    ensures momenta { IfOk result (λ propagator. HasMomenta (length (independents scope.now.conserved scope.now.names)) propagator.momenta) }
{
    let (first, second) = pair(File::Families, node)?;
    let momentum = read_independent(
        alloc,
        File::Families,
        scope.names.as_slice(),
        &scope.conserved,
        first,
    )?;
    let mass = value(alloc, File::Families, second, scope.invariants.as_slice())?;
    Ok(Propagator {
        line: second.line,
        momenta: Momenta::Square(momentum),
        mass,
    })
}

/// A product of two momenta, and a mass.
fn read_product(alloc: Global, scope: &Scope, node: &Tree) -> Result<Propagator, SchemaError>
    requires few { length scope.now.names ≤ 20 }
    requires few_invariants { length scope.now.invariants ≤ 32 }
    requires counts { HasCounts scope.now.conserved (length scope.now.names) }
    ensures reading { Answers (ReadsProduct scope.now node.now) result }
    ensures momenta { IfOk result (λ propagator. HasMomenta (length (independents scope.now.conserved scope.now.names)) propagator.momenta) }
{
    let names = scope.names.as_slice();
    let (product, second) = pair(File::Families, node)?;
    let (first, other) = pair(File::Families, product)?;
    let left = read_independent(alloc, File::Families, names, &scope.conserved, first)?;
    let right = read_independent(alloc, File::Families, names, &scope.conserved, other)?;
    let mass = value(alloc, File::Families, second, scope.invariants.as_slice())?;
    Ok(Propagator {
        line: second.line,
        momenta: Momenta::Product(left, right),
        mass,
    })
}

/// A map with the one key `bilinear`.
fn read_bilinear(alloc: Global, scope: &Scope, node: &Tree) -> Result<Propagator, SchemaError>
    requires few { length scope.now.names ≤ 20 }
    requires few_invariants { length scope.now.invariants ≤ 32 }
    requires counts { HasCounts scope.now.conserved (length scope.now.names) }
    ensures reading { Answers (ReadsBilinear scope.now node.now) result }
    ensures momenta { IfOk result (λ propagator. HasMomenta (length (independents scope.now.conserved scope.now.names)) propagator.momenta) }
{
    let keys = [Key::needed("bilinear")];
    let pairs = fields(File::Families, &keys, node)?;
    let inner = needed(File::Families, node.line, pairs, "bilinear")?;
    read_product(alloc, scope, inner)
}

/// A propagator of either form.
fn read_propagator(alloc: Global, scope: &Scope, node: &Tree) -> Result<Propagator, SchemaError>
    requires few { length scope.now.names ≤ 20 }
    requires few_invariants { length scope.now.invariants ≤ 32 }
    requires counts { HasCounts scope.now.conserved (length scope.now.names) }
    ensures reading { Answers (ReadsPropagator scope.now node.now) result }
    ensures momenta { IfOk result (λ propagator. HasMomenta (length (independents scope.now.conserved scope.now.names)) propagator.momenta) }
{
    match &node.value {
        Value::Map(_) => read_bilinear(alloc, scope, node),
        Value::Empty | Value::Scalar(_) | Value::List(_) => read_square(alloc, scope, node),
    }
}

/// The propagators of a list of as many as the family is wide.
pub fn read_propagators(
    alloc: Global,
    scope: &Scope,
    width: u32,
    node: &Tree,
) -> Result<Items<Propagator>, SchemaError>
    requires few { length scope.now.names ≤ 20 }
    requires few_invariants { length scope.now.invariants ≤ 32 }
    requires counts { HasCounts scope.now.conserved (length scope.now.names) }
    ensures reading { Answers (ReadsPropagators scope.now width node.now) result }
    ensures size { IfOk result (λ propagators. length propagators ≡ width) }
    ensures momenta { IfOk result (All (λ propagator. HasMomenta (length (independents scope.now.conserved scope.now.names)) propagator.momenta)) }
{
    let nodes = list(File::Families, node)?;
    if nodes.len() != width as usize {
        return Err(fault(File::Families, node.line, InputKind::WrongCount));
    }
    let mut propagators = Items::new(alloc);
    for item in nodes {
        let propagator = read_propagator(alloc, scope, item)?;
        propagators.push(propagator)?;
    }
    Ok(propagators)
}
