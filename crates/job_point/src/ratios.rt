//! The values of the numeric point, taken modulo the prime.

ghost use Rattle.std.specs.Prelude.{◌≡◌, ◌<◌, ◌%◌, [], Ok, IfOk};
ghost use Rattle.rational_expressions.specs.Evaluation.{IsQuotient, HasOutcome};
ghost use Rattle.job_point.specs.Steps.{Meets};
ghost use Rattle.job_point.specs.Values.{numerator_tree, ratio_tree, IsSettingAt};

use crate::faults::PlanError;
use crate::values::told;
use field_word::Modulus;
use job_schema::{Divisor, Ratio, Setting};
use rational_expressions::ValueFault;

/// The residue of the number before the slash, with its sign.
fn numerator(ratio: &Ratio, modulus: &Modulus) -> u64
    ensures value { HasOutcome modulus.now [] (numerator_tree ratio.now) (Ok result) }
    ensures below { result < modulus.now }
{
    let size = modulus.reduce(ratio.numerator);
    if ratio.is_negative {
        modulus.neg(size)
    } else {
        size
    }
}

/// A residue over a divisor.
fn quotient(x: u64, divisor: &Divisor, modulus: &Modulus) -> Result<u64, ValueFault>
    requires { x < modulus.now }
    ensures quotient { IsQuotient modulus.now divisor.now.at x (divisor.now.number % modulus.now) result }
    ensures below { IfOk result (λ v. v < modulus.now) }
{
    let y = modulus.reduce(divisor.number);
    if y == 0 {
        return Err(ValueFault::ZeroDivisor { at: divisor.at });
    }
    match modulus.inverse(y) {
        Ok(inverse) => Ok(modulus.mul(x, inverse)),
        Err(composite) => Err(ValueFault::Composite(composite)),
    }
}

/// The residue of a ratio.
fn ratio_value(ratio: &Ratio, modulus: &Modulus) -> Result<u64, ValueFault>
    ensures outcome { HasOutcome modulus.now [] (ratio_tree ratio.now) result }
    ensures below { IfOk result (λ v. v < modulus.now) }
{
    let numerator = numerator(ratio, modulus);
    match &ratio.divisor {
        None => Ok(numerator),
        Some(divisor) => quotient(numerator, divisor, modulus),
    }
}

/// The residue of the value of a parameter.
pub fn setting_value(setting: &Setting, modulus: &Modulus) -> Result<u64, PlanError>
    ensures value { Meets (IsSettingAt modulus.now setting.now) result }
    ensures below { IfOk result (λ v. v < modulus.now) }
{
    told(
        setting.file,
        setting.line,
        ratio_value(&setting.ratio, modulus),
    )
}
