//! Rules as the rows of a linear system, whose unknowns are the products of the external momenta.

ghost use Rattle.std.specs.Prelude.{◌≡◌, ◌+◌, ◌%◌, ◌<◌, ◌∷◌, ◌++◌, length, map, drop, slice_index, All, IfOk, ℤ};
ghost use Rattle.field_word.specs.Residues.{product_of};
ghost use Rattle.matrix_elimination.specs.Vectors.{IsVector};
ghost use Rattle.kinematics.specs.Points.{product_count};
ghost use Rattle.kinematics.specs.Rules.{IsRule, residue_of};
ghost use Rattle.kinematics.specs.RuleRows.{mixed, row_of, rule_row_of};

use crate::rules::Rule;
use field_word::Modulus;
use matrix_elimination::Vector;
use out_of_memory::OutOfMemory;
use std::alloc::Global;

/// The residue of a whole number.
pub fn residue(number: i64, modulus: &Modulus) -> u64
    ensures value { result ≡ residue_of modulus.now number }
    ensures below { result < modulus.now }
{
    let size = modulus.reduce(number.unsigned_abs() as u128);
    if number < 0 { modulus.neg(size) } else { size }
}

// The rows of the rules.
pub(crate) fn rule_rows(
    alloc: Global,
    rules: &[Rule],
    externals: u32,
    modulus: &Modulus,
) -> Result<Vec<Vector>, OutOfMemory>
    requires { All (IsRule modulus.now externals) rules.now }
    ensures rows { IfOk result (λ rows. rows.items ≡ map (rule_row_of modulus.now) rules.now) }
    ensures vectors { IfOk result (λ rows. All (IsVector modulus.now (product_count externals)) rows.items) }
{
    let mut rows = Vec::new(alloc);
    for rule in rules {
        rows.push(rule_row(alloc, rule, externals, modulus)?)?;
    }
    Ok(rows)
}

// The values of the rules.
pub(crate) fn rule_values(alloc: Global, rules: &[Rule]) -> Result<Vec<u64>, OutOfMemory>
    ensures { IfOk result (λ values. values.items ≡ map (λ rule. rule.value) rules.now) }
{
    let mut values = Vec::new(alloc);
    for rule in rules {
        values.push(rule.value)?;
    }
    Ok(values)
}

fn rule_row(
    alloc: Global,
    rule: &Rule,
    externals: u32,
    modulus: &Modulus,
) -> Result<Vector, OutOfMemory>
    requires { IsRule modulus.now externals rule.now }
    ensures row { IfOk result (λ row. row ≡ rule_row_of modulus.now rule.now) }
    ensures vector { IfOk result (λ row. IsVector modulus.now (product_count externals) row) }
{
    let left = residues(alloc, rule.left.coefficients(), modulus)?;
    let right = residues(alloc, rule.right.coefficients(), modulus)?;
    Ok(Vector::from_vec(row(alloc, &left, &right, modulus)?))
}

fn residues(alloc: Global, numbers: &[i16], modulus: &Modulus) -> Result<Vec<u64>, OutOfMemory>
    ensures value { IfOk result (λ residues. residues.items ≡ map (residue_of modulus.now) numbers.now) }
    ensures below { IfOk result (λ residues. All (λ x. x < modulus.now) residues.items) }
{
    let mut residues = Vec::new(alloc);
    for number in numbers {
        residues.push(residue(i64::from(*number), modulus))?;
    }
    Ok(residues)
}

fn row(
    alloc: Global,
    left: &[u64],
    right: &[u64],
    modulus: &Modulus,
) -> Result<Vec<u64>, OutOfMemory>
    requires size { length right.now ≡ length left.now }
    requires left { All (λ x. x < modulus.now) left.now }
    requires right { All (λ x. x < modulus.now) right.now }
    ensures { IfOk result (λ entries. entries.items ≡ row_of modulus.now left.now right.now) }
{
    let mut entries = Vec::new(alloc);
    for place in 0..left.len() {
        push_products(&mut entries, left, right, place, modulus)?;
    }
    Ok(entries)
}

// Appends the products of the momentum at a place with itself and each later one.
fn push_products(
    entries: &mut Vec<u64>,
    left: &[u64],
    right: &[u64],
    place: usize,
    modulus: &Modulus,
) -> Result<(), OutOfMemory>
    requires place { place < length left.now }
    requires size { length right.now ≡ length left.now }
    requires left { All (λ x. x < modulus.now) left.now }
    requires right { All (λ x. x < modulus.now) right.now }
    ensures { IfOk result (λ _. entries.new.items ≡ entries.old.items
        ++ (product_of modulus.now (slice_index left.now place) (slice_index right.now place)
        ∷ mixed modulus.now (slice_index left.now place) (slice_index right.now place)
        (drop (place + 1) left.now) (drop (place + 1) right.now))) }
{
    let (l, r) = (left[place], right[place]);
    entries.push(modulus.mul(l, r))?;
    for later in place + 1..left.len() {
        entries.push(modulus.add(modulus.mul(l, right[later]), modulus.mul(left[later], r)))?;
    }
    Ok(())
}
