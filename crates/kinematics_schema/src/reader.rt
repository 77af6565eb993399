//! Reads the file of kinematics.

ghost use Rattle.std.specs.Prelude.{◌<◌, ◌≤◌, length, All, IfOk, IfSome};
ghost use Rattle.input_schema.specs.Readings.{Answers};
ghost use Rattle.kinematics_schema.specs.Independent.{independents, HasCounts};
ghost use Rattle.kinematics_schema.specs.KinematicsFile.{ReadsProducts, ReadsMap, ReadsKinematics};
ghost use Rattle.kinematics_schema.specs.Sound.{HasMomenta, IsSound};

use crate::content::Kinematics;
use crate::externals::{Externals, read_externals};
use crate::invariants::{read_invariants, read_symbol};
use crate::rules::read_rules;
use input_schema::{File, InputKind, Key, SchemaError, fault, fields, needed};
use std::alloc::Global;
use yaml_text::{Pair, Tree};

/// The invariants, the rules and the invariant that is replaced by 1, with the external momenta.
fn read_products(
    alloc: Global,
    pairs: &[Pair],
    externals: Externals,
) -> Result<Kinematics, SchemaError>
    requires few { length externals.names ≤ 14 }
    requires counts { HasCounts externals.conserved (length externals.names) }
    ensures reading { Answers (ReadsProducts pairs.now externals) result }
    ensures counts { IfOk result (λ kinematics. HasCounts kinematics.conserved (length kinematics.externals)) }
    ensures few { IfOk result (λ kinematics. length kinematics.externals ≤ 14) }
    ensures few_invariants { IfOk result (λ kinematics. length kinematics.invariants ≤ 32) }
    ensures rules { IfOk result (λ kinematics. All (HasMomenta (length (independents kinematics.conserved kinematics.externals))) kinematics.rules) }
    ensures symbol { IfOk result (λ kinematics. IfSome kinematics.symbol (λ place. place < length kinematics.invariants)) }
{
    let invariants = read_invariants(alloc, pairs, externals.names.as_slice())?;
    let rules = read_rules(alloc, pairs, &externals, invariants.as_slice())?;
    let symbol = read_symbol(alloc, pairs, invariants.as_slice())?;
    let Externals { names, conserved } = externals;
    Ok(Kinematics {
        externals: names,
        conserved,
        invariants,
        rules,
        symbol,
    })
}

/// The map under the key `kinematics`.
fn read_map(alloc: Global, node: &Tree) -> Result<Kinematics, SchemaError>
    ensures reading { Answers (ReadsMap node.now) result }
    ensures counts { IfOk result (λ kinematics. HasCounts kinematics.conserved (length kinematics.externals)) }
    ensures few { IfOk result (λ kinematics. length (independents kinematics.conserved kinematics.externals) ≤ 6) }
    ensures few_externals { IfOk result (λ kinematics. length kinematics.externals ≤ 14) }
    ensures few_invariants { IfOk result (λ kinematics. length kinematics.invariants ≤ 32) }
    ensures symbol { IfOk result (λ kinematics. IfSome kinematics.symbol (λ place. place < length kinematics.invariants)) }
    ensures sound { IfOk result IsSound }
{
    let keys = [
        Key::needed("incoming_momenta"),
        Key::optional("outgoing_momenta"),
        Key::optional("momentum_conservation"),
        Key::optional("kinematic_invariants"),
        Key::optional("scalarproduct_rules"),
        Key::optional("symbol_to_replace_by_one"),
    ];
    let pairs = fields(File::Kinematics, &keys, node)?;
    let incoming = needed(File::Kinematics, node.line, pairs, "incoming_momenta")?;
    let externals = read_externals(alloc, pairs, incoming)?;
    let kinematics = read_products(alloc, pairs, externals)?;
    if kinematics.independent_count() <= 6 {
        Ok(kinematics)
    } else {
        Err(fault(File::Kinematics, incoming.line, InputKind::OutOfRange))
    }
}

/// What the tree of the file of kinematics says.
///
/// # Errors
///
/// The first fault of the tree, with its file, line and kind: `ReadsKinematics` of
/// `specs/KinematicsFile.antt` says which it is.
pub fn read(alloc: Global, tree: &Tree) -> Result<Kinematics, SchemaError>
    ensures reading { Answers (ReadsKinematics tree.now) result }
    ensures counts { IfOk result (λ kinematics. HasCounts kinematics.conserved (length kinematics.externals)) }
    ensures few { IfOk result (λ kinematics. length (independents kinematics.conserved kinematics.externals) ≤ 6) }
    ensures few_externals { IfOk result (λ kinematics. length kinematics.externals ≤ 14) }
    ensures few_invariants { IfOk result (λ kinematics. length kinematics.invariants ≤ 32) }
    ensures symbol { IfOk result (λ kinematics. IfSome kinematics.symbol (λ place. place < length kinematics.invariants)) }
    ensures sound { IfOk result IsSound }
{
    let keys = [Key::needed("kinematics")];
    let pairs = fields(File::Kinematics, &keys, tree)?;
    let node = needed(File::Kinematics, tree.line, pairs, "kinematics")?;
    read_map(alloc, node)
}
