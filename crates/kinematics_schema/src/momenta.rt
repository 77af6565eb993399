//! Momenta over the independent external momenta.

ghost use Rattle.std.specs.Prelude.{◌≡◌, ◌<◌, ◌^◌, length, IfOk};
ghost use Rattle.input_schema.specs.Readings.{Answers, Gives};
ghost use Rattle.kinematics_schema.specs.Independent as spec;
ghost use Rattle.kinematics_schema.specs.Independent.{independents, HasCounts, ReadsIndependent};

use crate::content::Conserved;
use input_schema::{File, SchemaError, momentum, replaced};
use momentum_sums::Momentum;
use std::alloc::Global;
use text_tokens::Name;
use yaml_text::Tree;

/// A momentum over all momenta as one over the independent ones: the conserved one is replaced by its
/// sum of the others, which stand in the same order. The place and the image of the conserved one are
/// those among all momenta that the text may name.
///
/// # Errors
///
/// OutOfRange at this line, where a coefficient is then below -1000 or above 1000.
pub fn independent(
    alloc: Global,
    file: File,
    line: u32,
    conserved: &Option<Conserved>,
    momentum: Momentum,
) -> Result<Momentum, SchemaError>
    requires { HasCounts conserved.now (length momentum) }
    ensures value { Gives (spec.independent file line conserved.now momentum) result }
    ensures counted { IfOk result (λ other. length other ≡ length (independents conserved.now momentum)) }
{
    match conserved {
        Some(other) => replaced(alloc, file, line, other.place, &other.image, &momentum),
        None => Ok(momentum),
    }
}

/// A scalar that writes a momentum over these names, as one over the independent ones.
///
/// # Errors
///
/// Those of `input_schema::momentum`, and then OutOfRange, where a coefficient is below -1000 or above
/// 1000 once the conserved momentum is replaced.
pub fn read_independent(
    alloc: Global,
    file: File,
    names: &[Name],
    conserved: &Option<Conserved>,
    node: &Tree,
) -> Result<Momentum, SchemaError>
    requires few { length names.now < 2 ^ 32 }
    requires counts { HasCounts conserved.now (length names.now) }
    ensures reading { Answers (ReadsIndependent file names.now conserved.now node.now) result }
    ensures counted { IfOk result (λ momentum. length momentum ≡ length (independents conserved.now names.now)) }
{
    let momentum = momentum(alloc, file, node, names)?;
    independent(alloc, file, node.line, conserved, momentum)
}
