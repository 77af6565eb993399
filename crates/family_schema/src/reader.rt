//! Reads the file of integral families.

ghost use Rattle.std.specs.Prelude.{◌≡◌, ◌≤◌, length, map, All, IfOk};
ghost use Rattle.input_schema.specs.Names as names;
ghost use Rattle.input_schema.specs.Readings.{Answers, Gives};
ghost use Rattle.input_schema.specs.declared.faults.File.TheVariants as file;
ghost use Rattle.kinematics_schema.specs.Independent.{independents, HasCounts};
ghost use Rattle.family_schema.specs.Scope as scope;
ghost use Rattle.family_schema.specs.FamilyFile.{ReadsHead, ReadsBody, ReadsRest, ReadsFamily, ReadsList, ReadsFamilies};
ghost use Rattle.family_schema.specs.Sound.{HasParts, IsSound};

use crate::content::Family;
use crate::loops::{Head, read_loops, width_of};
use crate::propagators::read_propagators;
use crate::scope::{Scope, scope_of};
use crate::sectors::{read_top, read_zero};
use crate::symmetries::read_symmetries;
use input_schema::{File, InputKind, Key, SchemaError, fault, fields, items, name, needed};
use kinematics_schema::Kinematics;
use sqlite_items::Items;
use std::alloc::Global;
use text_tokens::Name;
use yaml_text::{Pair, Tree};

/// Tests that no earlier family has this name.
fn unused(line: u32, found: &[Family], name: &Name) -> Result<(), SchemaError>
    ensures { Gives (names.fresh file.Families line (map (λ family. family.name) found.now) name.now) result }
{
    for family in found {
        if family.name.as_str().as_bytes() == name.as_str().as_bytes() {
            return Err(fault(File::Families, line, InputKind::DuplicateName));
        }
    }
    Ok(())
}

/// The name of a family, which no earlier one has.
fn read_name(alloc: Global, found: &[Family], node: &Tree) -> Result<Name, SchemaError>
    ensures { Gives (names.new_name file.Families node.now (map (λ family. family.name) found.now)) result }
{
    let name = name(alloc, File::Families, node)?;
    unused(node.line, found, &name)?;
    Ok(name)
}

/// The name and the loop momenta of a family, whose map begins on this line.
fn read_head(
    alloc: Global,
    kinematics: &Kinematics,
    found: &[Family],
    pairs: &[Pair],
    line: u32,
) -> Result<Head, SchemaError>
    requires counts { HasCounts kinematics.now.conserved (length kinematics.now.externals) }
    requires few { scope.independent_count kinematics.now ≤ 6 }
    ensures reading { Answers (ReadsHead kinematics.now found.now pairs.now line) result }
    ensures some { IfOk result (λ head. 1 ≤ length head.loops) }
    ensures few { IfOk result (λ head. length head.loops ≤ 6) }
    ensures narrow { IfOk result (λ head. scope.width_of (length head.loops) (scope.independent_count kinematics.now) ≤ 20) }
{
    let named = needed(File::Families, line, pairs, "name")?;
    let name = read_name(alloc, found, named)?;
    let looped = needed(File::Families, line, pairs, "loop_momenta")?;
    let loops = read_loops(alloc, kinematics, looped)?;
    Ok(Head { name, loops })
}

/// The other values of a family, whose map begins on this line.
fn read_body(
    alloc: Global,
    pairs: &[Pair],
    line: u32,
    scope: Scope,
    width: u32,
    name: Name,
) -> Result<Family, SchemaError>
    requires narrow { width ≤ 20 }
    requires few { length scope.names ≤ 20 }
    requires few_invariants { length scope.invariants ≤ 32 }
    requires counts { HasCounts scope.conserved (length scope.names) }
    requires loops { length scope.loops ≤ length (independents scope.conserved scope.names) }
    ensures reading { Answers (ReadsBody pairs.now line scope width name) result }
    ensures width { IfOk result (λ family. family.width ≡ width) }
    ensures loops { IfOk result (λ family. family.loops ≡ scope.loops) }
    ensures parts { IfOk result (HasParts (length (independents scope.conserved scope.names))) }
{
    let top_sectors = read_top(alloc, pairs, width)?;
    let listed = needed(File::Families, line, pairs, "propagators")?;
    let propagators = read_propagators(alloc, &scope, width, listed)?;
    let zero_sectors = read_zero(alloc, pairs, width)?;
    let symmetries = read_symmetries(alloc, pairs, &scope)?;
    let Scope {
        loops,
        names: _,
        conserved: _,
        invariants: _,
    } = scope;
    Ok(Family {
        name,
        loops,
        width,
        top_sectors,
        propagators,
        zero_sectors,
        symmetries,
    })
}

/// What follows the name and the loop momenta of a family, whose map begins on this line.
fn read_rest(
    alloc: Global,
    kinematics: &Kinematics,
    pairs: &[Pair],
    line: u32,
    head: Head,
) -> Result<Family, SchemaError>
    requires counts { HasCounts kinematics.now.conserved (length kinematics.now.externals) }
    requires few { scope.independent_count kinematics.now ≤ 6 }
    requires few_externals { length kinematics.now.externals ≤ 14 }
    requires few_invariants { length kinematics.now.invariants ≤ 32 }
    requires some_loops { 1 ≤ length head.loops }
    requires few_loops { length head.loops ≤ 6 }
    requires narrow { scope.width_of (length head.loops) (scope.independent_count kinematics.now) ≤ 20 }
    ensures reading { Answers (ReadsRest kinematics.now pairs.now line head) result }
    ensures sound { IfOk result (IsSound kinematics.now) }
{
    let Head { name, loops } = head;
    let width = width_of(loops.len(), kinematics.independent_count()) as u32;
    let scope = scope_of(alloc, kinematics, loops)?;
    read_body(alloc, pairs, line, scope, width, name)
}

/// A family, behind those that were found.
fn read_family(
    alloc: Global,
    kinematics: &Kinematics,
    found: &[Family],
    node: &Tree,
) -> Result<Family, SchemaError>
    requires counts { HasCounts kinematics.now.conserved (length kinematics.now.externals) }
    requires few { scope.independent_count kinematics.now ≤ 6 }
    requires few_externals { length kinematics.now.externals ≤ 14 }
    requires few_invariants { length kinematics.now.invariants ≤ 32 }
    ensures reading { Answers (ReadsFamily kinematics.now found.now node.now) result }
    ensures sound { IfOk result (IsSound kinematics.now) }
{
    let keys = [
        Key::needed("name"),
        Key::needed("loop_momenta"),
        Key::optional("top_level_sectors"),
        Key::needed("propagators"),
        Key::optional("zero_sectors"),
        Key::optional("symmetries"),
    ];
    let pairs = fields(File::Families, &keys, node)?;
    let head = read_head(alloc, kinematics, found, pairs, node.line)?;
    read_rest(alloc, kinematics, pairs, node.line, head)
}

/// The families of a list of 1 to 16 of them.
fn read_list(
    alloc: Global,
    kinematics: &Kinematics,
    node: &Tree,
) -> Result<Items<Family>, SchemaError>
    requires counts { HasCounts kinematics.now.conserved (length kinematics.now.externals) }
    requires few { scope.independent_count kinematics.now ≤ 6 }
    requires few_externals { length kinematics.now.externals ≤ 14 }
    requires few_invariants { length kinematics.now.invariants ≤ 32 }
    ensures reading { Answers (ReadsList kinematics.now node.now) result }
    ensures widths { IfOk result (λ families. All (λ family. family.width ≤ 20) families) }
    ensures few { IfOk result (λ families. length families ≤ 16) }
    ensures sound { IfOk result (All (IsSound kinematics.now)) }
{
    let nodes = items(File::Families, node, 1, 16)?;
    let mut families = Items::new(alloc);
    for item in nodes {
        let family = read_family(alloc, kinematics, families.as_slice(), item)?;
        families.push(family)?;
    }
    Ok(families)
}

/// What the tree of the file of integral families says, where the file of kinematics says this.
///
/// # Errors
///
/// The first fault of the tree, with its file, line and kind: `ReadsFamilies` of `specs/FamilyFile.antt`
/// says which it is.
pub fn read(
    alloc: Global,
    kinematics: &Kinematics,
    tree: &Tree,
) -> Result<Items<Family>, SchemaError>
    requires counts { HasCounts kinematics.now.conserved (length kinematics.now.externals) }
    requires few { length (independents kinematics.now.conserved kinematics.now.externals) ≤ 6 }
    requires few_externals { length kinematics.now.externals ≤ 14 }
    requires few_invariants { length kinematics.now.invariants ≤ 32 }
    ensures reading { Answers (ReadsFamilies kinematics.now tree.now) result }
    ensures widths { IfOk result (λ families. All (λ family. family.width ≤ 20) families) }
    ensures few { IfOk result (λ families. length families ≤ 16) }
    ensures sound { IfOk result (All (IsSound kinematics.now)) }
{
    let keys = [Key::needed("integralfamilies")];
    let pairs = fields(File::Families, &keys, tree)?;
    let node = needed(File::Families, tree.line, pairs, "integralfamilies")?;
    read_list(alloc, kinematics, node)
}
