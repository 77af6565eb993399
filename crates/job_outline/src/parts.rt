//! What the file of jobs has to know of the files before it.

ghost use Rattle.std.specs.Prelude.{◌≡◌, ◌<◌, ◌≤◌, All, IfOk, IfErr, IfSome, codes, length, map};
ghost use Rattle.input_schema.specs.declared.faults.SchemaError.TheVariants as schema_error;
ghost use Rattle.kinematics_schema.specs.Parameters.{others, parameter_count};
ghost use Rattle.job_outline.specs.Readings as spec;

use family_schema::Family;
use input_schema::{SchemaError, joined};
use job_schema::Frame;
use kinematics_schema::Kinematics;
use out_of_memory::OutOfMemory;
use sqlite_items::Items;
use std::alloc::Global;
use text_tokens::Name;

/// The name of the dimension.
fn dimension(alloc: Global) -> Result<Name, SchemaError>
    ensures name { IfOk result (λ name. name ≡ codes "d") }
    ensures err { IfErr result (λ e. e ≡ schema_error.OutOfMemory) }
{
    match Name::new(alloc, "d")? {
        Some(name) => Ok(name),
        None => unreachable!(),
    }
}

/// Copies of these names without the one at this place, if there is one.
fn without(alloc: Global, place: Option<usize>, names: &[Name]) -> Result<Items<Name>, SchemaError>
    requires { IfSome place (λ place. place < length names.now) }
    ensures names { IfOk result (λ found. found ≡ others place names.now) }
    ensures err { IfErr result (λ e. e ≡ schema_error.OutOfMemory) }
{
    let mut others = Items::from_vec(joined(alloc, names, &[])?);
    match place {
        Some(place) => {
            let _left_out = others.remove(place);
            Ok(others)
        }
        None => Ok(others),
    }
}

/// The names whose values the numeric point gives: the dimension, and the invariants but the one that is
/// replaced by 1.
pub fn parameters_of(alloc: Global, kinematics: &Kinematics) -> Result<Vec<Name>, SchemaError>
    requires { IfSome kinematics.now.symbol (λ place. place < length kinematics.now.invariants) }
    ensures names { IfOk result (λ names. names.items ≡ spec.parameters kinematics.now) }
    ensures count { IfOk result (λ names. length names.items ≡ parameter_count kinematics.now) }
    ensures err { IfErr result (λ e. e ≡ schema_error.OutOfMemory) }
{
    let dimension = [dimension(alloc)?];
    let others = without(alloc, kinematics.symbol, kinematics.invariants.as_slice())?;
    joined(alloc, &dimension, others.as_slice())
}

/// A copy of the name of a family.
fn name_of(alloc: Global, family: &Family) -> Result<Name, OutOfMemory>
    ensures { IfOk result (λ name. name ≡ family.now.name) }
{
    match Name::new(alloc, family.name.as_str())? {
        Some(name) => Ok(name),
        None => unreachable!(),
    }
}

/// Copies of the names of the families, in their order.
pub fn names_of(alloc: Global, families: &[Family]) -> Result<Vec<Name>, OutOfMemory>
    ensures { IfOk result (λ names. names.items ≡ spec.names_of families.now) }
{
    let mut names = Vec::new(alloc);
    for family in families {
        names.push(name_of(alloc, family)?)?;
    }
    Ok(names)
}

/// What the file of jobs has to know of a family.
fn frame_of(alloc: Global, family: &Family) -> Result<Frame, SchemaError>
    ensures frame { IfOk result (λ frame. frame ≡ spec.frame_of family.now) }
    ensures err { IfErr result (λ e. e ≡ schema_error.OutOfMemory) }
{
    Ok(Frame {
        width: family.width,
        top_level: Items::from_slice(alloc, family.top_sectors.as_slice())?,
    })
}

/// The same of each family, in their order.
pub fn frames_of(alloc: Global, families: &[Family]) -> Result<Vec<Frame>, SchemaError>
    requires { All (λ family. family.width ≤ 20) families.now }
    ensures frames { IfOk result (λ frames. frames.items ≡ map spec.frame_of families.now) }
    ensures widths { IfOk result (λ frames. All (λ frame. frame.width ≤ 20) frames.items) }
    ensures err { IfErr result (λ e. e ≡ schema_error.OutOfMemory) }
{
    let mut frames = Vec::new(alloc);
    for family in families {
        frames.push(frame_of(alloc, family)?)?;
    }
    Ok(frames)
}
