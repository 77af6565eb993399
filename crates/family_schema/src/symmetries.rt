//! The symmetries of a family: maps from its loop momenta to momenta.

ghost use Rattle.std.specs.Prelude.{◌≡◌, ◌≤◌, ◌<◌, [], length, map, codes, All, IfOk, IfErr};
ghost use Rattle.input_schema.specs.Readings.{Answers, IfGiven};
ghost use Rattle.input_schema.specs.Maps.{value_of};
ghost use Rattle.input_schema.specs.declared.faults.SchemaError.TheVariants as schema_error;
ghost use Rattle.kinematics_schema.specs.Independent.{independents, HasCounts};
ghost use Rattle.kinematics_schema.specs.KinematicsFile.{may};
ghost use Rattle.family_schema.specs.Scope as spec;
ghost use Rattle.family_schema.specs.FamilyFile.{ReadsImage, ReadsImages, ReadsSymmetry, ReadsSymmetries};
ghost use Rattle.family_schema.specs.Sound.{HasImages};

use crate::content::Symmetry;
use crate::scope::Scope;
use input_schema::{File, Key, SchemaError, fields, items, optional};
use kinematics_schema::read_independent;
use momentum_sums::Momentum;
use sqlite_items::Items;
use std::alloc::Global;
use text_tokens::Name;
use yaml_text::{Pair, Tree};

/// The momentum at this place by itself, among so many.
fn unit(alloc: Global, count: usize, place: usize) -> Result<Momentum, SchemaError>
    requires few { count ≤ 20 }
    requires within { place < count }
    ensures unit { IfOk result (λ momentum. momentum ≡ spec.unit count place) }
    ensures counted { IfOk result (λ momentum. length momentum ≡ count) }
    ensures err { IfErr result (λ e. e ≡ schema_error.OutOfMemory) }
{
    let mut coefficients = vec![in alloc; 0i16; count]?;
    coefficients[place] = 1;
    Ok(Momentum::new(alloc, &coefficients)?)
}

/// The image of the loop momentum with this name and place; one that the map lacks stays.
fn read_image(
    alloc: Global,
    scope: &Scope,
    pairs: &[Pair],
    place: usize,
    name: &Name,
) -> Result<Momentum, SchemaError>
    requires few { length scope.now.names ≤ 20 }
    requires counts { HasCounts scope.now.conserved (length scope.now.names) }
    requires within { place < length (independents scope.now.conserved scope.now.names) }
    ensures reading { Answers (ReadsImage scope.now pairs.now place name.now) result }
    ensures counted { IfOk result (λ image. length image ≡ length (independents scope.now.conserved scope.now.names)) }
{
    match optional(pairs, name.as_str()) {
        Some(node) => read_independent(
            alloc,
            File::Families,
            scope.names.as_slice(),
            &scope.conserved,
            node,
        ),
        None => unit(alloc, scope.independent_count(), place),
    }
}

/// The images of all loop momenta, in their order.
fn read_images(alloc: Global, scope: &Scope, pairs: &[Pair]) -> Result<Items<Momentum>, SchemaError>
    requires few { length scope.now.names ≤ 20 }
    requires counts { HasCounts scope.now.conserved (length scope.now.names) }
    requires loops { length scope.now.loops ≤ length (independents scope.now.conserved scope.now.names) }
    ensures reading { Answers (ReadsImages scope.now pairs.now) result }
    ensures one_for_each { IfOk result (λ images. length images ≡ length scope.now.loops) }
    ensures counted { IfOk result (All (λ image. length image ≡ length (independents scope.now.conserved scope.now.names))) }
{
    let names = scope.loops.as_slice();
    let mut images = Items::new(alloc);
    for name in names {
        let image = read_image(alloc, scope, pairs, images.len(), name)?;
        images.push(image)?;
    }
    Ok(images)
}

/// The keys of a map from these names, none of which is needed.
fn keys_of<'a>(alloc: Global, names: &'a [Name]) -> Result<Vec<Key<'a>>, SchemaError>
    ensures keys { IfOk result (λ keys. keys.items ≡ map (λ name. may name) names.now) }
    ensures err { IfErr result (λ e. e ≡ schema_error.OutOfMemory) }
{
    let mut keys = Vec::new(alloc);
    for name in names {
        keys.push(Key::optional(name.as_str()))?;
    }
    Ok(keys)
}

/// A map from loop momenta to momenta.
fn read_symmetry(alloc: Global, scope: &Scope, node: &Tree) -> Result<Symmetry, SchemaError>
    requires few { length scope.now.names ≤ 20 }
    requires counts { HasCounts scope.now.conserved (length scope.now.names) }
    requires loops { length scope.now.loops ≤ length (independents scope.now.conserved scope.now.names) }
    ensures reading { Answers (ReadsSymmetry scope.now node.now) result }
    ensures images { IfOk result (HasImages (length scope.now.loops) (length (independents scope.now.conserved scope.now.names))) }
{
    let keys = keys_of(alloc, scope.loops.as_slice())?;
    let pairs = fields(File::Families, &keys, node)?;
    let images = read_images(alloc, scope, pairs)?;
    Ok(Symmetry {
        line: node.line,
        images,
    })
}

/// The symmetries of a list of 0 to 64 of them.
fn read_list(alloc: Global, scope: &Scope, node: &Tree) -> Result<Items<Symmetry>, SchemaError>
    requires few { length scope.now.names ≤ 20 }
    requires counts { HasCounts scope.now.conserved (length scope.now.names) }
    requires loops { length scope.now.loops ≤ length (independents scope.now.conserved scope.now.names) }
    ensures reading { Answers (ReadsSymmetries scope.now node.now) result }
    ensures images { IfOk result (All (HasImages (length scope.now.loops) (length (independents scope.now.conserved scope.now.names)))) }
{
    let nodes = items(File::Families, node, 0, 64)?;
    let mut symmetries = Items::new(alloc);
    for item in nodes {
        let symmetry = read_symmetry(alloc, scope, item)?;
        symmetries.push(symmetry)?;
    }
    Ok(symmetries)
}

/// The symmetries, if the map names some.
pub fn read_symmetries(
    alloc: Global,
    pairs: &[Pair],
    scope: &Scope,
) -> Result<Items<Symmetry>, SchemaError>
    requires few { length scope.now.names ≤ 20 }
    requires counts { HasCounts scope.now.conserved (length scope.now.names) }
    requires loops { length scope.now.loops ≤ length (independents scope.now.conserved scope.now.names) }
    ensures reading { Answers (IfGiven (value_of pairs.now (codes "symmetries")) [] (ReadsSymmetries scope.now)) result }
    ensures images { IfOk result (All (HasImages (length scope.now.loops) (length (independents scope.now.conserved scope.now.names)))) }
{
    match optional(pairs, "symmetries") {
        Some(node) => read_list(alloc, scope, node),
        None => Ok(Items::new(alloc)),
    }
}
