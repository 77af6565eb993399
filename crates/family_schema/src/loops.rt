//! The loop momenta of a family, and how many denominators it has.

ghost use Rattle.std.specs.Prelude.{◌≡◌, ◌≤◌, length, IfOk};
ghost use Rattle.input_schema.specs.Readings.{Answers, Gives};
ghost use Rattle.kinematics_schema.specs.Independent.{HasCounts};
ghost use Rattle.family_schema.specs.Scope as scope;
ghost use Rattle.family_schema.specs.FamilyFile as spec;
ghost use Rattle.family_schema.specs.FamilyFile.{ReadsLoops};

use input_schema::{File, InputKind, SchemaError, fault, fresh, items, name};
use kinematics_schema::Kinematics;
use sqlite_items::Items;
use std::alloc::Global;
use text_tokens::Name;
use yaml_text::Tree;

/// The name and the loop momenta of a family.
#[derive(Drop)]
pub struct Head {
    pub name: Name,
    pub loops: Items<Name>,
}

/// How many denominators a family has.
pub fn width_of(loops: usize, externals: usize) -> usize
    requires few { loops ≤ 6 }
    requires few_externals { externals ≤ 6 }
    ensures value { result ≡ scope.width_of loops externals }
    ensures small { result ≤ 57 }
{
    loops * (loops + 1) / 2 + loops * externals
}

/// A loop momentum, which is none of the names that are declared.
fn read_loop(
    alloc: Global,
    kinematics: &Kinematics,
    found: &[Name],
    node: &Tree,
) -> Result<Name, SchemaError>
    ensures { Gives (spec.loop_name kinematics.now found.now node.now) result }
{
    let name = name(alloc, File::Families, node)?;
    fresh(
        File::Families,
        node.line,
        kinematics.externals.as_slice(),
        &name,
    )?;
    fresh(
        File::Families,
        node.line,
        kinematics.invariants.as_slice(),
        &name,
    )?;
    fresh(File::Families, node.line, found, &name)?;
    Ok(name)
}

/// The loop momenta of a list of 1 to 6 of them, with which a family has at most 20 denominators.
pub fn read_loops(
    alloc: Global,
    kinematics: &Kinematics,
    node: &Tree,
) -> Result<Items<Name>, SchemaError>
    requires counts { HasCounts kinematics.now.conserved (length kinematics.now.externals) }
    requires few { scope.independent_count kinematics.now ≤ 6 }
    ensures reading { Answers (ReadsLoops kinematics.now node.now) result }
    ensures some { IfOk result (λ loops. 1 ≤ length loops) }
    ensures few { IfOk result (λ loops. length loops ≤ 6) }
    ensures narrow { IfOk result (λ loops. scope.width_of (length loops) (scope.independent_count kinematics.now) ≤ 20) }
{
    let nodes = items(File::Families, node, 1, 6)?;
    let mut loops = Items::new(alloc);
    for item in nodes {
        let name = read_loop(alloc, kinematics, loops.as_slice(), item)?;
        loops.push(name)?;
    }
    if width_of(loops.len(), kinematics.independent_count()) <= 20 {
        Ok(loops)
    } else {
        Err(fault(File::Families, node.line, InputKind::OutOfRange))
    }
}
