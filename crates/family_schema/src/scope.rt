//! The momenta that the texts of a family may name.

ghost use Rattle.std.specs.Prelude.{◌≡◌, ◌<◌, ◌≤◌, ◌+◌, ◌++◌, length, replicate, pos, IfOk, IfErr, IfSome};
ghost use Rattle.momentum_sums.specs.Momenta.{IsCoefficient};
ghost use Rattle.input_schema.specs.Readings.{Gives};
ghost use Rattle.input_schema.specs.declared.faults.SchemaError.TheVariants as schema_error;
ghost use Rattle.kinematics_schema.specs.Independent.{independents, HasCounts};
ghost use Rattle.family_schema.specs.Scope as spec;

use input_schema::{SchemaError, joined};
use kinematics_schema::{Conserved, Kinematics};
use momentum_sums::Momentum;
use sqlite_items::Items;
use std::alloc::Global;
use text_tokens::Name;

/// The names that the texts of a family may use: the loop momenta and then all external momenta, of which
/// one may be conserved, and the invariants.
#[derive(Drop)]
pub struct Scope {
    pub loops: Items<Name>,
    pub names: Items<Name>,
    pub conserved: Option<Conserved>,
    pub invariants: Items<Name>,
}

impl Scope {
    ghost use Rattle.std.specs.Prelude.{◌≡◌, length};
    ghost use Rattle.kinematics_schema.specs.Independent.{independents, HasCounts};

    /// How many momenta the texts are over once the conserved one is replaced.
    pub fn independent_count(&self) -> usize
        requires { HasCounts self.now.conserved (length self.now.names) }
        ensures { result ≡ length (independents self.now.conserved self.now.names) }
    {
        match &self.conserved {
            Some(_) => self.names.len() - 1,
            None => self.names.len(),
        }
    }
}

/// The conserved momentum among so many loop momenta and then all external ones.
fn shifted(
    alloc: Global,
    count: usize,
    conserved: &Option<Conserved>,
) -> Result<Option<Conserved>, SchemaError>
    requires few { count ≤ 6 }
    requires near { IfSome conserved.now (λ momentum. momentum.place ≤ 14) }
    ensures shifted { IfOk result (λ moved. moved ≡ spec.shifted count conserved.now) }
    ensures err { IfErr result (λ e. e ≡ schema_error.OutOfMemory) }
{
    match conserved {
        Some(momentum) => {
            let mut image = vec![in alloc; 0i16; count]?;
            image.extend_from_slice(momentum.image.coefficients())?;
            Ok(Some(Conserved {
                place: count + momentum.place,
                image: Momentum::new(alloc, &image)?,
            }))
        }
        None => Ok(None),
    }
}

/// The names that the texts of a family with these loop momenta may use.
pub fn scope_of(
    alloc: Global,
    kinematics: &Kinematics,
    loops: Items<Name>,
) -> Result<Scope, SchemaError>
    requires few { length loops ≤ 6 }
    requires counts { HasCounts kinematics.now.conserved (length kinematics.now.externals) }
    requires few_externals { length kinematics.now.externals ≤ 14 }
    ensures scope { IfOk result (λ scope. scope ≡ spec.scope_of kinematics.now loops) }
    ensures counts { IfOk result (λ scope. HasCounts scope.conserved (length scope.names)) }
    ensures few { IfOk result (λ scope. length scope.names ≤ 20) }
    ensures loops { IfOk result (λ scope. length scope.loops ≤ length (independents scope.conserved scope.names)) }
    ensures momenta { IfOk result (λ scope. length (independents scope.conserved scope.names) ≡ length loops + spec.independent_count kinematics.now) }
    ensures err { IfErr result (λ e. e ≡ schema_error.OutOfMemory) }
{
    let names = joined(alloc, loops.as_slice(), kinematics.externals.as_slice())?;
    let invariants = joined(alloc, kinematics.invariants.as_slice(), &[])?;
    let conserved = shifted(alloc, loops.len(), &kinematics.conserved)?;
    Ok(Scope {
        loops,
        names: Items::from_vec(names),
        conserved,
        invariants: Items::from_vec(invariants),
    })
}
