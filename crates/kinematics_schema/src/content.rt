//! What the file of kinematics says.

ghost use Rattle.std.specs.Prelude.{◌≡◌, ◌<◌, length, remove, IfOk, IfErr};
ghost use Rattle.input_schema.specs.declared.faults.SchemaError.TheVariants as schema_error;

use input_schema::{SchemaError, joined};
use momentum_sums::Momentum;
use rational_expressions::Expression;
use sqlite_items::Items;
use std::alloc::Global;
use text_tokens::Name;

/// The external momentum that is a sum of the others.
#[derive(Debug, Drop)]
pub struct Conserved {
    /// Its place among all external momenta, counted from 0.
    pub place: usize,
    /// Its coefficients over the other external momenta, in their order.
    pub image: Momentum,
}

/// A rule: the product of two momenta has this value. The momenta are over the independent external
/// momenta, the value is over the invariants.
#[derive(Debug, Drop)]
pub struct Rule {
    /// The line of the value, counted from 1, for a division by zero that is found later.
    pub line: u32,
    /// The first momentum.
    pub left: Momentum,
    /// The second momentum.
    pub right: Momentum,
    /// The value.
    pub value: Expression,
}

/// What the file of kinematics says. The project's own, after the file of this name of Kira
/// (arXiv:1705.05610).
#[derive(Debug, Drop)]
pub struct Kinematics {
    /// The incoming momenta, and then the outgoing ones.
    pub externals: Items<Name>,
    /// The external momentum that is a sum of the others, if there is one.
    pub conserved: Option<Conserved>,
    /// The invariants, in the order of the file.
    pub invariants: Items<Name>,
    /// The rules, in the order of the file.
    pub rules: Items<Rule>,
    /// The place among the invariants of the one that is replaced by 1, counted from 0, if there is one.
    pub symbol: Option<usize>,
}

/// Copies of these names without the one at this place, counted from 0.
pub(crate) fn without_place(
    alloc: Global,
    place: usize,
    names: &[Name],
) -> Result<Items<Name>, SchemaError>
    requires { place < length names.now }
    ensures names { IfOk result (λ others. others ≡ remove names.now place) }
    ensures err { IfErr result (λ e. e ≡ schema_error.OutOfMemory) }
{
    let mut others = Items::from_vec(joined(alloc, names, &[])?);
    let _taken = others.remove(place);
    Ok(others)
}

impl Kinematics {
    ghost use Rattle.std.specs.Prelude.{◌≡◌, length, IfOk, IfErr};
    ghost use Rattle.kinematics_schema.specs.Independent.{independents, HasCounts};
    ghost use Rattle.input_schema.specs.declared.faults.SchemaError.TheVariants as schema_error;

    /// The names of the independent external momenta: all but the conserved one.
    ///
    /// # Errors
    ///
    /// `OutOfMemory` where memory was refused, and no other.
    pub fn independents(&self, alloc: Global) -> Result<Items<Name>, SchemaError>
        requires { HasCounts self.now.conserved (length self.now.externals) }
        ensures names { IfOk result (λ names. names ≡ independents self.now.conserved self.now.externals) }
        ensures err { IfErr result (λ e. e ≡ schema_error.OutOfMemory) }
    {
        match &self.conserved {
            Some(momentum) => without_place(alloc, momentum.place, self.externals.as_slice()),
            None => Ok(Items::from_vec(joined(alloc, self.externals.as_slice(), &[])?)),
        }
    }

    /// How many of them there are.
    pub fn independent_count(&self) -> usize
        requires { HasCounts self.now.conserved (length self.now.externals) }
        ensures { result ≡ length (independents self.now.conserved self.now.externals) }
    {
        match &self.conserved {
            Some(_) => self.externals.len() - 1,
            None => self.externals.len(),
        }
    }
}
