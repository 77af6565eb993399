//! The numeric point of a job: the prime, and the values of the dimension and the invariants.

ghost use Rattle.std.specs.Prelude.{◌≡◌, IfOk};
ghost use Rattle.std.specs.Option.{option_copied};
ghost use Rattle.input_schema.specs.Readings.{Gives};
ghost use Rattle.job_schema.specs.Jobs as spec;

use crate::ratios::{Ratio, read_prime, read_ratio};
use field_word::Modulus;
use input_schema::{File, Key, SchemaError, fields, optional, scalar};
use out_of_memory::OutOfMemory;
use sqlite_items::Items;
use std::alloc::Global;
use text_tokens::Name;
use yaml_text::{Pair, Tree};

/// A value of a parameter, and where it is written: a division by zero in it is told there.
#[derive(Clone, Copy, Debug, PartialEq, Eq, Drop)]
pub struct Setting {
    /// The file of jobs, or the words.
    pub file: File,
    /// The line, or the place of the word.
    pub line: u32,
    /// The value.
    pub ratio: Ratio,
}

/// The numeric point as far as it is given.
#[derive(Debug, Drop)]
pub struct PointInput {
    /// The line on which the point begins in the file of jobs.
    pub line: u32,
    /// The modulus, where it is given.
    pub prime: Option<Modulus>,
    /// The value of each parameter that has one, in the order of the parameters.
    pub settings: Items<Option<Setting>>,
}

/// The numeric point: the modulus, and the value of each parameter in the order of the parameters.
#[derive(Debug, Drop)]
pub struct NumericPoint {
    /// The modulus.
    pub prime: Modulus,
    /// The values.
    pub settings: Items<Setting>,
}

fn prime_in(node: Option<&Tree>) -> Result<Option<Modulus>, SchemaError>
    ensures { Gives (spec.prime_in (option_copied node.entry)) result }
{
    match node {
        None => Ok(None),
        Some(node) => {
            let text = scalar(File::Jobs, node)?;
            let prime = read_prime(File::Jobs, node.line, text.as_str().as_bytes())?;
            Ok(Some(prime))
        }
    }
}

fn setting_in(node: Option<&Tree>) -> Result<Option<Setting>, SchemaError>
    ensures { Gives (spec.setting_in (option_copied node.entry)) result }
{
    match node {
        None => Ok(None),
        Some(node) => {
            let text = scalar(File::Jobs, node)?;
            let ratio = read_ratio(File::Jobs, node.line, text.as_str().as_bytes())?;
            Ok(Some(Setting {
                file: File::Jobs,
                line: node.line,
                ratio,
            }))
        }
    }
}

fn setting_of(pairs: &[Pair], name: &Name) -> Result<Option<Setting>, SchemaError>
    ensures { Gives (spec.setting_of pairs.now name.now) result }
{
    setting_in(optional(pairs, name.as_str()))
}

fn settings_of(
    alloc: Global,
    names: &[Name],
    pairs: &[Pair],
) -> Result<Items<Option<Setting>>, SchemaError>
    ensures { Gives (spec.settings_of names.now pairs.now) result }
{
    let mut settings = Items::new(alloc);
    for name in names {
        settings.push(setting_of(pairs, name)?)?;
    }
    Ok(settings)
}

fn point_of(
    alloc: Global,
    names: &[Name],
    line: u32,
    pairs: &[Pair],
) -> Result<PointInput, SchemaError>
    ensures { Gives (spec.point_of names.now line pairs.now) result }
{
    let prime = prime_in(optional(pairs, "prime"))?;
    let settings = settings_of(alloc, names, pairs)?;
    Ok(PointInput {
        line,
        prime,
        settings,
    })
}

/// The keys that a point may have.
fn point_keys(alloc: Global, names: &[Name]) -> Result<Vec<Key<'_>>, OutOfMemory>
    ensures { IfOk result (λ keys. keys.items ≡ spec.point_keys names.now) }
{
    let mut keys = Vec::new(alloc);
    keys.push(Key::optional("prime"))?;
    for name in names {
        keys.push(Key::optional(name.as_str()))?;
    }
    Ok(keys)
}

/// The values of the prime and of the parameters with these names, as far as the node gives them.
pub(crate) fn read_point(
    alloc: Global,
    names: &[Name],
    node: &Tree,
) -> Result<PointInput, SchemaError>
    ensures { Gives (spec.point names.now node.now) result }
{
    let keys = point_keys(alloc, names)?;
    let pairs = fields(File::Jobs, &keys, node)?;
    point_of(alloc, names, node.line, pairs)
}
