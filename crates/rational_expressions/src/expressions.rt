//! Expressions over named values.

use crate::evaluation::evaluate;
use crate::faults::ValueFault;
use field_word::Modulus;
use std::marker::Model;

/// One item of an expression in postfix form: a number, the place of a name, or an operation on the
/// values before it.
#[derive(Clone, Copy, Debug, PartialEq, Eq)]
pub(crate) enum Item {
    Number(u128),
    Place(u32),
    Negate,
    Add,
    Subtract,
    Multiply,
    Divide(u32),
    Power(u8),
}

/// An expression over named values: a tree of numbers, places of names and operations. It is kept in
/// postfix form, operands first, and a division keeps the offset of its `/` in the text.
#[derive(Debug, Drop)]
pub struct Expression {
    items: Vec<Item>,
}

impl Model for Expression {
    ghost use Rattle.rational_expressions.specs.Trees.{Tree, tree_of, IsProgram};
    ghost use Rattle.rational_expressions.specs.TreeCode.{coded_tree};

    ghost Value = { Tree };

    ghost coded = { coded_tree };

    ghost view = { λ e. tree_of e.items.items };

    ghost invariant = { λ e. IsProgram e.items.items };
}

impl Expression {
    ghost use Rattle.std.specs.Prelude.{◌≡◌, ◌<◌, All, IfOk};
    ghost use Rattle.rational_expressions.specs.Trees.{tree_of, IsProgram};
    ghost use Rattle.rational_expressions.specs.Evaluation.{HasOutcome};

    /// The expression with these items.
    pub(crate) fn from_items(items: Vec<Item>) -> Expression
        requires { IsProgram items.items }
        ensures { result ≡ tree_of items.items }
    {
        Expression { items }
    }

    /// Its value modulo p, where the name at each place has the residue at that place. Operations are
    /// done from left to right, operands first, and the power 0 is 1; it takes no memory.
    ///
    /// The fault is that of the first division that fails: `ZeroDivisor` with the offset of its `/` where
    /// its divisor is 0, `Composite` where its divisor isn't 0 and has no inverse.
    pub fn value(&self, residues: &[u64], modulus: &Modulus) -> Result<u64, ValueFault>
        requires { All (λ v. v < modulus.now) residues.now }
        ensures outcome { HasOutcome modulus.now residues.now self.now result }
        ensures below { IfOk result (λ v. v < modulus.now) }
    {
        evaluate(&self.items, residues, modulus)
    }
}
