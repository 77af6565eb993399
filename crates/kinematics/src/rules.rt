//! Kinematic rules, and the point that meets them.

ghost use Rattle.std.specs.Prelude.{◌≡◌, ◌↔◌, ◌≤◌, All, IsTrue, IfOk, IfErr};
ghost use Rattle.kinematics.specs.Rules.{IsRule, IsPointOf, HasPointCause};

use crate::points::Point;
use crate::product_places::product_count;
use crate::rule_rows::{rule_rows, rule_values};
use field_word::{Composite, Modulus};
use matrix_elimination::{SystemFault, Vector, solve};
use momentum_sums::Momentum;
use out_of_memory::OutOfMemory;
use std::alloc::Global;
use thiserror::Error;

/// A kinematic rule: the product of two sums of the independent external momenta has this value, a
/// residue.
#[derive(Debug, Drop)]
pub struct Rule {
    /// The one sum, with a coefficient for each momentum.
    pub left: Momentum,
    /// The other sum.
    pub right: Momentum,
    /// The residue of their product.
    pub value: u64,
}

impl Rule {
    /// Whether `point` takes the rule: its sums have a coefficient for each of the external momenta, and
    /// its value is a residue.
    pub fn fits(&self, externals: u32, modulus: &Modulus) -> bool
        ensures { IsTrue result ↔ IsRule modulus.now externals self.now }
    {
        let size = externals as usize;
        self.left.coefficients().len() == size
            && self.right.coefficients().len() == size
            && self.value < modulus.value()
    }
}

/// Whether `point` takes each of the rules.
pub fn rules_fit(rules: &[Rule], externals: u32, modulus: &Modulus) -> bool
    ensures { IsTrue result ↔ All (IsRule modulus.now externals) rules.now }
{
    rules.iter().all(|rule| rule.fits(externals, modulus))
}

/// Why rules have no point, or why none was found.
#[derive(Debug, Drop, Error)]
pub enum PointFault {
    /// No table meets the rules: under these multipliers, one for each rule, their products cancel
    /// over every table, and their values sum to the residue, which isn't 0.
    #[error("the rules clash")]
    RulesClash { multipliers: Vector, residue: u64 },
    /// Several tables meet the rules: the product of each rule vanishes over this vector, whose
    /// entries stand in the order of the tables. Its first entry other than 0 is 1.
    #[error("the rules leave a product open")]
    RulesOpen { vector: Vector },
    /// A number that has to be inverted has no inverse, so the modulus isn't prime: a divisor of it.
    #[error(transparent)]
    Composite(Composite),
    /// Memory was refused.
    #[error("out of memory")]
    OutOfMemory,
}

/// The point of the rules: the only table of the products of at most 6 external momenta that meets
/// every rule.
///
/// A clash goes before an open product. `Composite` only where the modulus has the divisor, which lies
/// between 1 and it; so for a prime, and where memory is there, the answer is the point exactly where
/// one table meets the rules, a clash exactly where none does, and else an open product.
pub fn point(
    alloc: Global,
    rules: &[Rule],
    externals: u32,
    modulus: &Modulus,
) -> Result<Point, PointFault>
    requires few { externals ≤ 6 }
    requires rules { All (IsRule modulus.now externals) rules.now }
    ensures point { IfOk result (λ point. IsPointOf modulus.now externals rules.now point.products) }
    ensures modulus { IfOk result (λ point. point.modulus ≡ modulus.now) }
    ensures externals { IfOk result (λ point. point.externals ≡ externals) }
    ensures cause { IfErr result (λ fault. HasPointCause modulus.now externals rules.now fault) }
{
    let rows = rule_rows(alloc, rules, externals, modulus)?;
    let values = rule_values(alloc, rules)?;
    let width = product_count(externals);
    let products = solve(alloc, &rows, &values, width, modulus)?;
    Ok(Point::of_products(*modulus, externals, products.into_vec()))
}

impl From<OutOfMemory> for PointFault {
    ghost use Rattle.std.specs.Prelude.{◌≡◌};
    ghost use Rattle.kinematics.specs.declared.rules.PointFault.TheVariants as point_fault;

    ghost from_gives = { λ _ e. e ≡ point_fault.OutOfMemory };

    fn from(_refused: OutOfMemory) -> PointFault {
        PointFault::OutOfMemory
    }
}

impl From<SystemFault> for PointFault {
    ghost use Rattle.kinematics.specs.RuleRows.{FaultGives};

    ghost from_gives = { FaultGives };

    fn from(fault: SystemFault) -> PointFault {
        match fault {
            SystemFault::Clash {
                multipliers,
                residue,
            } => {
                PointFault::RulesClash {
                    multipliers,
                    residue,
                }
            }
            SystemFault::Open { vector } => PointFault::RulesOpen { vector },
            SystemFault::Composite(composite) => PointFault::Composite(composite),
            SystemFault::OutOfMemory => PointFault::OutOfMemory,
        }
    }
}
