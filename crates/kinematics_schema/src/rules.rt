//! The rules of scalar products.

ghost use Rattle.std.specs.Prelude.{◌<◌, ◌≤◌, ◌^◌, [], length, codes, All, IfOk};
ghost use Rattle.input_schema.specs.Readings.{Answers, IfGiven};
ghost use Rattle.input_schema.specs.Maps.{value_of};
ghost use Rattle.kinematics_schema.specs.Independent.{independents, HasCounts};
ghost use Rattle.kinematics_schema.specs.KinematicsFile.{ReadsRule, ReadsRules};
ghost use Rattle.kinematics_schema.specs.Sound.{HasMomenta};

use crate::content::Rule;
use crate::externals::Externals;
use crate::momenta::read_independent;
use input_schema::{File, SchemaError, items, optional, pair, value};
use sqlite_items::Items;
use std::alloc::Global;
use text_tokens::Name;
use yaml_text::{Pair, Tree};

/// A rule: two momenta, and the value of their product.
fn read_rule(
    alloc: Global,
    externals: &Externals,
    invariants: &[Name],
    node: &Tree,
) -> Result<Rule, SchemaError>
    requires few { length externals.now.names ≤ 14 }
    requires few_invariants { length invariants.now ≤ 32 }
    requires counts { HasCounts externals.now.conserved (length externals.now.names) }
    ensures reading { Answers (ReadsRule externals.now.names externals.now.conserved invariants.now node.now) result }
    ensures momenta { IfOk result (HasMomenta (length (independents externals.now.conserved externals.now.names))) }
{
    let names = externals.names.as_slice();
    let (product, second) = pair(File::Kinematics, node)?;
    let (first, other) = pair(File::Kinematics, product)?;
    let left = read_independent(alloc, File::Kinematics, names, &externals.conserved, first)?;
    let right = read_independent(alloc, File::Kinematics, names, &externals.conserved, other)?;
    let value = value(alloc, File::Kinematics, second, invariants)?;
    Ok(Rule {
        line: second.line,
        left,
        right,
        value,
    })
}

/// The rules of a list of 0 to 64 of them.
fn read_list(
    alloc: Global,
    externals: &Externals,
    invariants: &[Name],
    node: &Tree,
) -> Result<Items<Rule>, SchemaError>
    requires few { length externals.now.names ≤ 14 }
    requires few_invariants { length invariants.now ≤ 32 }
    requires counts { HasCounts externals.now.conserved (length externals.now.names) }
    ensures reading { Answers (ReadsRules externals.now.names externals.now.conserved invariants.now node.now) result }
    ensures momenta { IfOk result (All (HasMomenta (length (independents externals.now.conserved externals.now.names)))) }
{
    let nodes = items(File::Kinematics, node, 0, 64)?;
    let mut rules = Items::new(alloc);
    for item in nodes {
        let rule = read_rule(alloc, externals, invariants, item)?;
        rules.push(rule)?;
    }
    Ok(rules)
}

/// The rules, if the map has some.
pub fn read_rules(
    alloc: Global,
    pairs: &[Pair],
    externals: &Externals,
    invariants: &[Name],
) -> Result<Items<Rule>, SchemaError>
    requires few { length externals.now.names ≤ 14 }
    requires few_invariants { length invariants.now ≤ 32 }
    requires counts { HasCounts externals.now.conserved (length externals.now.names) }
    ensures reading { Answers (IfGiven (value_of pairs.now (codes "scalarproduct_rules")) [] (ReadsRules externals.now.names externals.now.conserved invariants.now)) result }
    ensures momenta { IfOk result (All (HasMomenta (length (independents externals.now.conserved externals.now.names)))) }
{
    match optional(pairs, "scalarproduct_rules") {
        Some(node) => read_list(alloc, externals, invariants, node),
        None => Ok(Items::new(alloc)),
    }
}
