//! Vectors of residues.

ghost use Rattle.std.specs.Prelude.{◌≡◌, ◌≢◌, ◌<◌, ◌≤◌, ℕ, length, slice_index, All, IfOk, MatchOption};
ghost use Rattle.matrix_elimination.specs.Vectors.{IsVector, unit_at};
ghost use Rattle.matrix_elimination.specs.Steps.{IsWithMultiple, IsMultiple};

use field_word::Modulus;
use out_of_memory::OutOfMemory;
use std::alloc::Global;
use std::marker::Model;

/// A list of residues, such as a row of a matrix, its multipliers or a solution. Contracts see the
/// list. A vector knows no modulus: each call that computes is given the one that its entries are
/// residues of.
#[derive(Debug, Drop)]
pub struct Vector {
    entries: Vec<u64>,
}

impl Model for Vector {
    ghost use Rattle.std.specs.Prelude.{ℕ, List};

    ghost Value = { List ℕ };

    ghost view = { λ v. v.entries.items };
}

impl Vector {
    /// The vector with these entries.
    pub fn new(alloc: Global, entries: &[u64]) -> Result<Vector, OutOfMemory>
        ensures { IfOk result (λ v. v ≡ entries.now) }
    {
        Ok(Vector {
            entries: Vec::from_slice(alloc, entries)?,
        })
    }

    /// The vector with these entries. It takes no memory.
    pub fn from_vec(entries: Vec<u64>) -> Vector
        ensures { result ≡ entries.items }
    {
        Vector { entries }
    }

    // The vector of this length with 1 at this place and 0 elsewhere.
    pub(crate) fn unit(alloc: Global, size: usize, place: usize) -> Result<Vector, OutOfMemory>
        ensures size { IfOk result (λ v. length v ≡ size) }
        ensures small { IfOk result (λ v. All (λ x. x ≤ 1) v) }
        ensures unit { IfOk result (λ v. (i : ℕ) → i < size → slice_index v i ≡ unit_at place i) }
    {
        let mut entries = Vec::new(alloc);
        for i in 0..size {
            entries.push(u64::from(i == place))?;
        }
        Ok(Vector { entries })
    }

    /// Its entries.
    pub fn entries(&self) -> &[u64]
        ensures { result.now ≡ self.now }
    {
        self.entries.as_slice()
    }

    /// Its entries, without memory.
    pub fn into_vec(self) -> Vec<u64>
        ensures { result.items ≡ self }
    {
        self.entries
    }

    // The same vector.
    pub(crate) fn copy(&self, alloc: Global) -> Result<Vector, OutOfMemory>
        ensures { IfOk result (λ v. v ≡ self.now) }
    {
        Vector::new(alloc, self.entries.as_slice())
    }

    // Adds a multiple of another vector of the same length.
    pub(crate) fn add_multiple(&mut self, factor: u64, other: &Vector, modulus: &Modulus)
        requires below { All (λ x. x < modulus.now) self.old }
        requires other { IsVector modulus.now (length self.old) other.now }
        requires factor { factor < modulus.now }
        ensures { IsWithMultiple modulus.now factor self.old other.now self.new }
    {
        add_multiple(&mut self.entries, factor, &other.entries, modulus);
    }

    // Multiplies all entries.
    pub(crate) fn scale(&mut self, factor: u64, modulus: &Modulus)
        requires below { All (λ x. x < modulus.now) self.old }
        requires factor { factor < modulus.now }
        ensures { IsMultiple modulus.now factor self.old self.new }
    {
        scale(&mut self.entries, factor, modulus);
    }
}

fn add_multiple(target: &mut Vec<u64>, factor: u64, other: &[u64], modulus: &Modulus)
    requires below { All (λ x. x < modulus.now) target.old.items }
    requires other { IsVector modulus.now (length target.old.items) other.now }
    requires factor { factor < modulus.now }
    ensures { IsWithMultiple modulus.now factor target.old.items other.now target.new.items }
{
    for place in 0..target.len() {
        let addend = modulus.mul(factor, other[place]);
        target[place] = modulus.add(target[place], addend);
    }
}

fn scale(target: &mut Vec<u64>, factor: u64, modulus: &Modulus)
    requires below { All (λ x. x < modulus.now) target.old.items }
    requires factor { factor < modulus.now }
    ensures { IsMultiple modulus.now factor target.old.items target.new.items }
{
    for place in 0..target.len() {
        target[place] = modulus.mul(factor, target[place]);
    }
}

// The place of the last entry other than 0.
pub(crate) fn last_place(entries: &[u64]) -> Option<usize>
    ensures { MatchOption result
        ((k : ℕ) → slice_index entries.now k ≡ 0)
        (λ place. (place < length entries.now) × (slice_index entries.now place ≢ 0)
        × ((k : ℕ) → place < k → slice_index entries.now k ≡ 0)) }
{
    let mut end = entries.len();
    while end > 0 {
        end -= 1;
        if entries[end] != 0 {
            return Some(end);
        }
    }
    None
}
