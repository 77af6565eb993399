//! The values of the dimension and of the invariants, and of expressions over the invariants.

ghost use Rattle.std.specs.Prelude.{◌≡◌, ◌<◌, ◌≤◌, length, All, IfOk, IfErr, IfSome};
ghost use Rattle.rational_expressions.specs.Evaluation.{HasOutcome};
ghost use Rattle.job_point.specs.Steps.{Meets, Each};
ghost use Rattle.job_point.specs.Values as spec;
ghost use Rattle.job_point.specs.Values.{IsValueAt, IsSettingAt, AreSettingsAt, AreValuesAt};
ghost use Rattle.job_point.specs.declared.faults.PlanError.TheVariants as plan_error;

use crate::faults::{PlanError, value_error};
use crate::ratios::setting_value;
use field_word::Modulus;
use input_schema::File;
use job_schema::Setting;
use rational_expressions::{Expression, ValueFault};
use sqlite_items::Items;
use std::alloc::Global;

/// The residues of all invariants, in the order of the file, and that of the dimension.
#[derive(Drop)]
pub struct Values {
    pub residues: Items<u64>,
    pub dimension: u64,
}

/// The outcome of an expression that stands on this line of this file.
pub fn told(file: File, line: u32, outcome: Result<u64, ValueFault>) -> Result<u64, PlanError>
    ensures { result ≡ spec.answer_of file line outcome }
{
    match outcome {
        Ok(value) => Ok(value),
        Err(fault) => Err(value_error(file, line, fault)),
    }
}

/// The value of an expression on this line of this file, where each invariant has its residue.
pub fn value_at(
    file: File,
    line: u32,
    value: &Expression,
    residues: &[u64],
    modulus: &Modulus,
) -> Result<u64, PlanError>
    requires { All (λ v. v < modulus.now) residues.now }
    ensures value { Meets (IsValueAt modulus.now residues.now file line value.now) result }
    ensures below { IfOk result (λ v. v < modulus.now) }
{
    told(file, line, value.value(residues, modulus))
}

/// The values of parameters, in their order.
fn setting_values(
    alloc: Global,
    settings: &[Setting],
    modulus: &Modulus,
) -> Result<Items<u64>, PlanError>
    ensures values { Meets (AreSettingsAt modulus.now settings.now) result }
    ensures size { IfOk result (λ values. length values ≡ length settings.now) }
    ensures below { IfOk result (All (λ v. v < modulus.now)) }
{
    let mut values = Items::new(alloc);
    for setting in settings {
        let value = setting_value(setting, modulus)?;
        values.push(value)?;
    }
    Ok(values)
}

/// The values of all invariants, where these are those of all but the one at the place of the symbol,
/// whose value is 1.
fn with_symbol(
    alloc: Global,
    symbol: Option<usize>,
    values: &[u64],
    modulus: &Modulus,
) -> Result<Items<u64>, PlanError>
    requires within { IfSome symbol (λ place. place ≤ length values.now) }
    requires below { All (λ v. v < modulus.now) values.now }
    ensures residues { IfOk result (λ residues. residues ≡ spec.with_symbol symbol values.now) }
    ensures below { IfOk result (All (λ v. v < modulus.now)) }
    ensures err { IfErr result (λ e. e ≡ plan_error.OutOfMemory) }
{
    let p = modulus.value();
    prove!(p > 1);
    let mut residues = Vec::from_slice(alloc, values)?;
    if let Some(place) = symbol {
        residues.insert(place, 1)?;
    }
    Ok(Items::from_vec(residues))
}

/// The values of the invariants and of the dimension, where the dimension is the first of the settings and
/// the invariants but the symbol are the others.
pub fn values_at(
    alloc: Global,
    symbol: Option<usize>,
    settings: &[Setting],
    modulus: &Modulus,
) -> Result<Values, PlanError>
    requires some { 1 ≤ length settings.now }
    requires within { IfSome symbol (λ place. place < length settings.now) }
    ensures values { Meets (AreValuesAt modulus.now symbol settings.now) result }
    ensures below { IfOk result (λ values. All (λ v. v < modulus.now) values.residues) }
    ensures dimension { IfOk result (λ values. values.dimension < modulus.now) }
{
    match settings {
        [first, others @ ..] => {
            let found = setting_values(alloc, others, modulus)?;
            let dimension = setting_value(first, modulus)?;
            let residues = with_symbol(alloc, symbol, found.as_slice(), modulus)?;
            Ok(Values {
                residues,
                dimension,
            })
        }
        [] => unreachable!(),
    }
}
