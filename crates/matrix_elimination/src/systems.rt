//! Linear systems modulo p.

ghost use Rattle.std.specs.Prelude.{◌≡◌, ◌≢◌, ◌%◌, ◌<◌, ℕ, [], All, MatchOption, length, slice_index, None, Some, IfOk, IfErr, IfSome};
ghost use Rattle.std.specs.List.{slice_index_or};
ghost use Rattle.matrix_elimination.specs.Vectors.{IsVector, dot};
ghost use Rattle.matrix_elimination.specs.Elimination.{HasSum};
ghost use Rattle.matrix_elimination.specs.Steps.{AreSums};
ghost use Rattle.matrix_elimination.specs.declared.elimination.Solved.{Solved as SolvedValue};
ghost use Rattle.matrix_elimination.specs.Systems.{IsOnlySolution, HasSystemCause};
ghost use Rattle.matrix_elimination.specs.Solutions.{solution_of, unknown_at, open_entry};

use crate::elimination::{EliminationFault, Solved, eliminate};
use crate::vectors::Vector;
use field_word::{Composite, Modulus};
use out_of_memory::OutOfMemory;
use std::alloc::Global;
use thiserror::Error;

/// Why a linear system has no only solution, or why none was found.
#[derive(Debug, Drop, Error)]
pub enum SystemFault {
    /// The system has no solution: under these multipliers, one for each row, the rows cancel and the
    /// values sum to the residue, which isn't 0.
    #[error("the equations clash")]
    Clash { multipliers: Vector, residue: u64 },
    /// The system has solutions, and more than one: every row vanishes on this vector, whose first
    /// entry other than 0 is 1.
    #[error("the equations leave an unknown open")]
    Open { vector: Vector },
    /// An entry has no inverse, so the modulus isn't prime: a divisor of it.
    #[error(transparent)]
    Composite(Composite),
    /// Memory was refused.
    #[error("out of memory")]
    OutOfMemory,
}

/// The only residues, one for each of `width` columns, with which each row sums to its value.
///
/// A clash goes before an open unknown. `Composite` only where the modulus has the divisor, which
/// lies between 1 and it; so for a prime the answer is always one of the others.
pub fn solve(
    alloc: Global,
    rows: &[Vector],
    values: &[u64],
    width: usize,
    modulus: &Modulus,
) -> Result<Vector, SystemFault>
    requires rows { All (IsVector modulus.now width) rows.now }
    requires values { IsVector modulus.now (length rows.now) values.now }
    ensures solution { IfOk result (λ xs. IsOnlySolution modulus.now width rows.now values.now xs) }
    ensures cause { IfErr result (λ fault. HasSystemCause modulus.now width rows.now values.now fault) }
{
    let p = modulus.value();
    prove!(p > 1);
    let eliminated = eliminate(alloc, rows, width, modulus)?;
    if let Some(place) = first_clash(&eliminated.cancelled, values, modulus) {
        let multipliers = eliminated.cancelled[place].copy(alloc)?;
        let residue = dot(multipliers.entries(), values, modulus);
        return Err(SystemFault::Clash {
            multipliers,
            residue,
        });
    }
    match first_open(&eliminated.solved) {
        Some(column) => {
            let vector = open_vector(alloc, &eliminated.solved, column, modulus)?;
            Err(SystemFault::Open { vector })
        }
        None => Ok(solution(alloc, &eliminated.solved, values, modulus)?),
    }
}

/// The sum of the products of the entries in the same places.
pub fn dot(left: &[u64], right: &[u64], modulus: &Modulus) -> u64
    requires left { All (λ x. x < modulus.now) left.now }
    requires right { All (λ x. x < modulus.now) right.now }
    ensures value { result ≡ dot left.now right.now % modulus.now }
    ensures below { result < modulus.now }
{
    let mut sum = modulus.reduce(0);
    for place in 0..left.len().min(right.len()) {
        sum = modulus.add(sum, modulus.mul(left[place], right[place]));
    }
    sum
}

// The place of the first multipliers under which the values don't cancel.
fn first_clash(cancelled: &[Vector], values: &[u64], modulus: &Modulus) -> Option<usize>
    requires cancelled { All (λ z. All (λ x. x < modulus.now) z) cancelled.now }
    requires values { All (λ x. x < modulus.now) values.now }
    ensures { MatchOption result
        (All (λ z. dot z values.now % modulus.now ≡ 0) cancelled.now)
        (λ place. (place < length cancelled.now) × (dot (slice_index_or cancelled.now place []) values.now % modulus.now ≢ 0)) }
{
    for place in 0..cancelled.len() {
        if dot(cancelled[place].entries(), values, modulus) != 0 {
            return Some(place);
        }
    }
    None
}

// The first column that has no sum.
fn first_open(solved: &[Option<Solved>]) -> Option<usize>
    ensures { MatchOption result
        (All (λ s. s ≢ None) solved.now)
        (λ column. (column < length solved.now) × (slice_index_or solved.now column None ≡ None)) }
{
    for column in 0..solved.len() {
        if solved[column].is_none() {
            return Some(column);
        }
    }
    None
}

// The vector on which the rows vanish: 1 at the open column, and minus what each solved column has
// there.
fn open_vector(
    alloc: Global,
    solved: &[Option<Solved>],
    column: usize,
    modulus: &Modulus,
) -> Result<Vector, OutOfMemory>
    requires column { column < length solved.now }
    requires sums { (c : ℕ) (sum : SolvedValue) → HasSum solved.now c sum → IsVector modulus.now (length solved.now) sum.entries }
    ensures vector { IfOk result (λ v. IsVector modulus.now (length solved.now) v) }
    ensures entries { IfOk result (λ v. (k : ℕ) → k < length solved.now →
        slice_index v k ≡ open_entry modulus.now column k (slice_index_or solved.now k None)) }
{
    let mut entries = Vec::new(alloc);
    for place in 0..solved.len() {
        entries.push(open_entry(&solved[place], column, place, modulus))?;
    }
    Ok(Vector::from_vec(entries))
}

// The entry of that vector at a place.
fn open_entry(sum: &Option<Solved>, column: usize, place: usize, modulus: &Modulus) -> u64
    requires { IfSome sum.now (λ s. (column < length s.entries) × All (λ x. x < modulus.now) s.entries) }
    ensures value { result ≡ open_entry modulus.now column place sum.now }
    ensures below { result < modulus.now }
{
    let p = modulus.value();
    prove!(p > 1);
    match sum {
        Some(sum) => modulus.neg(sum.entries.entries()[column]),
        None => u64::from(place == column),
    }
}

// The unknowns, where all columns are solved.
fn solution(
    alloc: Global,
    solved: &[Option<Solved>],
    values: &[u64],
    modulus: &Modulus,
) -> Result<Vector, OutOfMemory>
    requires values { All (λ x. x < modulus.now) values.now }
    requires sums { AreSums modulus.now (length solved.now) (length values.now) solved.now }
    ensures value { IfOk result (λ xs. xs ≡ solution_of modulus.now solved.now values.now) }
{
    let mut unknowns = Vec::new(alloc);
    for place in 0..solved.len() {
        unknowns.push(unknown(&solved[place], values, modulus))?;
    }
    Ok(Vector::from_vec(unknowns))
}

// The unknown of one column.
fn unknown(sum: &Option<Solved>, values: &[u64], modulus: &Modulus) -> u64
    requires values { All (λ x. x < modulus.now) values.now }
    requires sum { IfSome sum.now (λ s. All (λ x. x < modulus.now) s.multipliers) }
    ensures { result ≡ unknown_at modulus.now values.now sum.now }
{
    match sum {
        Some(sum) => dot(sum.multipliers.entries(), values, modulus),
        None => 0,
    }
}

impl From<OutOfMemory> for SystemFault {
    ghost use Rattle.std.specs.Prelude.{◌≡◌};
    ghost use Rattle.matrix_elimination.specs.declared.systems.SystemFault.TheVariants as system_fault;

    ghost from_gives = { λ _ e. e ≡ system_fault.OutOfMemory };

    fn from(_refused: OutOfMemory) -> SystemFault {
        SystemFault::OutOfMemory
    }
}

impl From<EliminationFault> for SystemFault {
    ghost use Rattle.matrix_elimination.specs.Solutions.{FaultGives};

    ghost from_gives = { FaultGives };

    fn from(fault: EliminationFault) -> SystemFault {
        match fault {
            EliminationFault::Composite(composite) => SystemFault::Composite(composite),
            EliminationFault::OutOfMemory => SystemFault::OutOfMemory,
        }
    }
}
