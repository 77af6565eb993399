//! The rules of scalar products at the numeric point, and the point that meets them.

ghost use Rattle.std.specs.Prelude.{◌≡◌, ◌<◌, ◌≤◌, length, All, IfOk};
ghost use Rattle.kinematics.specs.Rules.{IsRule};
ghost use Rattle.kinematics_schema.specs.Independent.{independents};
ghost use Rattle.kinematics_schema.specs.Sound.{HasMomenta, IsSound};
ghost use Rattle.job_point.specs.Steps.{Meets};
ghost use Rattle.job_point.specs.Point.{IsRuleAt, AreRulesAt, IsPointFor, IsPointAt};

use crate::faults::{PlanError, point_error};
use crate::values::value_at;
use field_word::Modulus;
use input_schema::File;
use kinematics::{Point, Rule, point, refused_rules_have_no_point};
use kinematics_schema::Kinematics;
use momentum_sums::Momentum;
use sqlite_items::Items;
use std::alloc::Global;

/// A rule with the residue of its value.
fn rule_at(
    alloc: Global,
    rule: &kinematics_schema::Rule,
    residues: &[u64],
    modulus: &Modulus,
) -> Result<Rule, PlanError>
    requires { All (λ v. v < modulus.now) residues.now }
    ensures rule { Meets (IsRuleAt modulus.now residues.now rule.now) result }
    ensures left { IfOk result (λ found. found.left ≡ rule.now.left) }
    ensures right { IfOk result (λ found. found.right ≡ rule.now.right) }
    ensures below { IfOk result (λ found. found.value < modulus.now) }
{
    let value = value_at(File::Kinematics, rule.line, &rule.value, residues, modulus)?;
    let left = Momentum::new(alloc, rule.left.coefficients())?;
    let right = Momentum::new(alloc, rule.right.coefficients())?;
    Ok(Rule { left, right, value })
}

/// The rules with the residues of their values. Their momenta have `externals` coefficients.
fn rules_at(
    alloc: Global,
    rules: &[kinematics_schema::Rule],
    externals: u32,
    residues: &[u64],
    modulus: &Modulus,
) -> Result<Items<Rule>, PlanError>
    requires residues { All (λ v. v < modulus.now) residues.now }
    requires momenta { All (HasMomenta externals) rules.now }
    ensures rules { Meets (AreRulesAt modulus.now residues.now rules.now) result }
    ensures each { IfOk result (All (IsRule modulus.now externals)) }
{
    let mut found = Items::new(alloc);
    for rule in rules {
        let next = rule_at(alloc, rule, residues, modulus)?;
        found.push(next)?;
    }
    Ok(found)
}

/// The point of these rules over so many external momenta.
fn point_of(
    alloc: Global,
    rules: &[Rule],
    externals: u32,
    modulus: &Modulus,
) -> Result<Point, PlanError>
    requires few { externals ≤ 6 }
    requires rules { All (IsRule modulus.now externals) rules.now }
    ensures { Meets (IsPointFor modulus.now externals rules.now) result }
{
    // The law asks for a modulus above 1, which is known once it is read.
    let _p = modulus.value();
    refused_rules_have_no_point();
    match point(alloc, rules, externals, modulus) {
        Ok(point) => Ok(point),
        Err(fault) => Err(point_error(fault)),
    }
}

/// The point of the rules of these kinematics, where each invariant has its residue.
pub fn point_at(
    alloc: Global,
    kinematics: &Kinematics,
    residues: &[u64],
    modulus: &Modulus,
) -> Result<Point, PlanError>
    requires sound { IsSound kinematics.now }
    requires residues { All (λ v. v < modulus.now) residues.now }
    ensures point { Meets (IsPointAt modulus.now residues.now kinematics.now) result }
    ensures modulus { IfOk result (λ point. point.modulus ≡ modulus.now) }
    ensures externals { IfOk result (λ point. point.externals ≡ length (independents kinematics.now.conserved kinematics.now.externals)) }
{
    let externals = kinematics.independent_count() as u32;
    let rules = rules_at(
        alloc,
        kinematics.rules.as_slice(),
        externals,
        residues,
        modulus,
    )?;
    point_of(alloc, rules.as_slice(), externals, modulus)
}
