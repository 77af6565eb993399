//! The sectors of a family: one bit for each propagator.

ghost use Rattle.std.specs.Prelude.{◌≡◌, ◌<◌, ◌≤◌, ◌^◌, [], ◌∷◌, codes, All, IfOk};
ghost use Rattle.input_schema.specs.Readings.{Answers, IfGiven};
ghost use Rattle.input_schema.specs.Maps.{value_of};
ghost use Rattle.family_schema.specs.Scope as scope;
ghost use Rattle.family_schema.specs.FamilyFile.{ReadsSectors};

use input_schema::{File, SchemaError, items, number, optional};
use sqlite_items::Items;
use std::alloc::Global;
use yaml_text::{Pair, Tree};

/// The sector of all denominators.
fn all_of(width: u32) -> u32
    requires { width ≤ 20 }
    ensures { result ≡ scope.all_of width }
{
    2u32.pow(width) - 1
}

/// The sectors of a list of `least` to `most` of them.
fn read_list(
    alloc: Global,
    least: usize,
    most: usize,
    width: u32,
    node: &Tree,
) -> Result<Items<u32>, SchemaError>
    requires { width ≤ 20 }
    ensures reading { Answers (ReadsSectors least most width node.now) result }
    ensures below { IfOk result (All (λ sector. sector < 2 ^ width)) }
{
    let nodes = items(File::Families, node, least, most)?;
    let greatest = all_of(width);
    let mut sectors = Items::new(alloc);
    for item in nodes {
        let sector = number(File::Families, item, 0, greatest)?;
        sectors.push(sector)?;
    }
    Ok(sectors)
}

/// The top level sectors, or the one sector of all denominators where the map names none.
pub fn read_top(alloc: Global, pairs: &[Pair], width: u32) -> Result<Items<u32>, SchemaError>
    requires { width ≤ 20 }
    ensures reading { Answers (IfGiven (value_of pairs.now (codes "top_level_sectors")) (scope.all_of width ∷ []) (ReadsSectors 1 256 width)) result }
    ensures below { IfOk result (All (λ sector. sector < 2 ^ width)) }
{
    match optional(pairs, "top_level_sectors") {
        Some(node) => read_list(alloc, 1, 256, width, node),
        None => {
            let mut sectors = Items::new(alloc);
            sectors.push(all_of(width))?;
            Ok(sectors)
        }
    }
}

/// The sectors that are zero, if the map names some.
pub fn read_zero(alloc: Global, pairs: &[Pair], width: u32) -> Result<Items<u32>, SchemaError>
    requires { width ≤ 20 }
    ensures reading { Answers (IfGiven (value_of pairs.now (codes "zero_sectors")) [] (ReadsSectors 0 1024 width)) result }
    ensures below { IfOk result (All (λ sector. sector < 2 ^ width)) }
{
    match optional(pairs, "zero_sectors") {
        Some(node) => read_list(alloc, 0, 1024, width, node),
        None => Ok(Items::new(alloc)),
    }
}
