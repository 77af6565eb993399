//! Elimination of the rows of a matrix.

ghost use Rattle.std.specs.Prelude.{◌≡◌, ◌+◌, ◌<◌, ◌≢◌, ℕ, [], All, length, slice_index, None, Some, IfOk, OnOk, IfErr, IfSome};
ghost use Rattle.std.specs.List.{slice_index_or};
ghost use Rattle.matrix_elimination.specs.Vectors.{IsVector, unit_at};
ghost use Rattle.matrix_elimination.specs.Elimination.{IsElimination};
ghost use Rattle.matrix_elimination.specs.Fault.{HasCause, IsProperDivisor};
ghost use Rattle.matrix_elimination.specs.Steps.{IsWithMultiple, IsMultiple, IsSum, AreSums, IsCleared, IsRest, Solves, IsPartial};

use crate::vectors::{Vector, last_place};
use field_word::{Composite, Modulus};
use out_of_memory::OutOfMemory;
use std::alloc::{AllocFailed, Global};
use thiserror::Error;

/// A sum of multiples of the rows of a matrix: its entries, one for each column, and its
/// multipliers, one for each row. All are residues.
#[derive(Debug, Drop)]
pub struct Solved {
    /// The entries of the sum.
    pub entries: Vector,
    /// How often the sum has each row.
    pub multipliers: Vector,
}

/// What an elimination finds.
#[derive(Debug, Drop)]
pub struct Eliminated {
    /// For each column the sum of multiples of rows that has 1 in this column and 0 in every other
    /// column that has a sum, and in all columns behind this; or nothing where the column stays open.
    pub solved: Vec<Option<Solved>>,
    /// The multipliers under which the rows cancel; the first of them that isn't 0 is 1.
    pub cancelled: Vec<Vector>,
}

/// Why an elimination ended early.
#[derive(Clone, Copy, Debug, PartialEq, Eq, Error)]
pub enum EliminationFault {
    /// An entry has no inverse, so the modulus isn't prime: a divisor of it.
    #[error(transparent)]
    Composite(Composite),
    /// Memory was refused.
    #[error("out of memory")]
    OutOfMemory,
}

/// The elimination of these rows, each of `width` residues.
///
/// The rows are taken from the last to the first, and the last entry other than 0 of what is left of
/// a row gives its column. So the first entry other than 0 of cancelled multipliers is 1, and so is
/// that of the vector which has 1 at an open column and minus its entries at the solved ones, on which
/// every row vanishes.
///
/// `Composite` only where the modulus has the divisor, which lies between 1 and it, so never for a
/// prime. A composite modulus that meets no entry without an inverse is no fault.
/// Source: linear algebra, Gauss-Jordan elimination.
pub fn eliminate(
    alloc: Global,
    rows: &[Vector],
    width: usize,
    modulus: &Modulus,
) -> Result<Eliminated, EliminationFault>
    requires { All (IsVector modulus.now width) rows.now }
    ensures elimination { IfOk result (λ e. IsElimination modulus.now width rows.now e) }
    ensures cause { IfErr result (λ fault. HasCause modulus.now fault) }
{
    let mut eliminated = Eliminated::open(alloc, width)?;
    let mut place = rows.len();
    while place > 0 {
        place -= 1;
        eliminated.take_row(alloc, rows, place, width, modulus)?;
    }
    Ok(eliminated)
}

impl Eliminated {
    // Nothing is solved yet.
    fn open(alloc: Global, width: usize) -> Result<Eliminated, OutOfMemory>
        ensures columns { IfOk result (λ e. length e.solved.items ≡ width) }
        ensures open { IfOk result (λ e. (c : ℕ) → slice_index_or e.solved.items c None ≡ None) }
        ensures cancelled { IfOk result (λ e. e.cancelled.items ≡ []) }
    {
        let mut solved = Vec::new(alloc);
        for _ in 0..width {
            solved.push(None)?;
        }
        Ok(Eliminated {
            solved,
            cancelled: Vec::new(alloc),
        })
    }

    // Takes the row at a place, where those behind it are taken.
    fn take_row(
        &mut self,
        alloc: Global,
        rows: &[Vector],
        place: usize,
        width: usize,
        modulus: &Modulus,
    ) -> Result<(), EliminationFault>
        requires rows { All (IsVector modulus.now width) rows.now }
        requires place { place < length rows.now }
        requires taken { IsPartial modulus.now width rows.now (place + 1) self.old }
        ensures taken { OnOk result (IsPartial modulus.now width rows.now place self.new) }
        ensures cause { IfErr result (λ fault. HasCause modulus.now fault) }
    {
        let p = modulus.value();
        prove!(p > 1);
        let row = &rows[place];
        let mut sum = Solved {
            entries: row.copy(alloc)?,
            multipliers: Vector::unit(alloc, rows.len(), place)?,
        };
        sum.reduce(row.entries(), &self.solved, modulus);
        match last_place(sum.entries.entries()) {
            None => self.cancelled.push(sum.multipliers)?,
            Some(column) => self.solve(column, sum, modulus)?,
        }
        Ok(())
    }

    // Gives a column, which is open, this sum, whose last entry other than 0 stands there.
    fn solve(&mut self, column: usize, mut sum: Solved, modulus: &Modulus) -> Result<(), Composite>
        requires open { slice_index_or self.old.solved.items column None ≡ None }
        requires column { column < length self.old.solved.items }
        requires sum { IsSum modulus.now (length self.old.solved.items) (length sum.multipliers) sum }
        requires sums { AreSums modulus.now (length self.old.solved.items) (length sum.multipliers) self.old.solved.items }
        requires entry { slice_index sum.entries column ≢ 0 }
        ensures solved { OnOk result (Solves modulus.now column sum self.old.solved.items self.new.solved.items) }
        ensures cancelled { self.new.cancelled.items ≡ self.old.cancelled.items }
        ensures cause { IfErr result (λ fault. IsProperDivisor modulus.now fault.divisor) }
    {
        let inverse = modulus.inverse(sum.entries.entries()[column])?;
        sum.entries.scale(inverse, modulus);
        sum.multipliers.scale(inverse, modulus);
        clear(&mut self.solved, column, &sum, modulus);
        self.solved[column] = Some(sum);
        Ok(())
    }
}

impl Solved {
    // Subtracts what is solved, each as often as the row has its column.
    fn reduce(&mut self, row: &[u64], solved: &[Option<Solved>], modulus: &Modulus)
        requires sum { IsSum modulus.now (length solved.now) (length self.old.multipliers) self.old }
        requires row { IsVector modulus.now (length solved.now) row.now }
        requires sums { AreSums modulus.now (length solved.now) (length self.old.multipliers) solved.now }
        ensures sum { IsSum modulus.now (length solved.now) (length self.old.multipliers) self.new }
        ensures rest { IsRest modulus.now row.now solved.now self.old self.new }
    {
        for column in 0..solved.len() {
            if let Some(pivot) = &solved[column] {
                self.add_multiple(modulus.neg(row[column]), pivot, modulus);
            }
        }
    }

    // Adds a multiple of another sum of the same rows.
    fn add_multiple(&mut self, factor: u64, other: &Solved, modulus: &Modulus)
        requires sum { IsSum modulus.now (length self.old.entries) (length self.old.multipliers) self.old }
        requires other { IsSum modulus.now (length self.old.entries) (length self.old.multipliers) other.now }
        requires factor { factor < modulus.now }
        ensures entries { IsWithMultiple modulus.now factor self.old.entries other.now.entries self.new.entries }
        ensures multipliers { IsWithMultiple modulus.now factor self.old.multipliers other.now.multipliers self.new.multipliers }
    {
        self.entries.add_multiple(factor, &other.entries, modulus);
        self.multipliers
            .add_multiple(factor, &other.multipliers, modulus);
    }
}

// Clears a column in all that is solved: the pivot is subtracted as often as its entry there says.
fn clear(solved: &mut Vec<Option<Solved>>, column: usize, pivot: &Solved, modulus: &Modulus)
    requires column { column < length solved.old.items }
    requires pivot { IsSum modulus.now (length solved.old.items) (length pivot.now.multipliers) pivot.now }
    requires sums { AreSums modulus.now (length solved.old.items) (length pivot.now.multipliers) solved.old.items }
    ensures columns { length solved.new.items ≡ length solved.old.items }
    ensures cleared { (c : ℕ) → IsCleared modulus.now column pivot.now
        (slice_index_or solved.old.items c None) (slice_index_or solved.new.items c None) }
{
    for place in 0..solved.len() {
        clear_column(&mut solved[place], column, pivot, modulus);
    }
}

fn clear_column(sum: &mut Option<Solved>, column: usize, pivot: &Solved, modulus: &Modulus)
    requires column { column < length pivot.now.entries }
    requires pivot { IsSum modulus.now (length pivot.now.entries) (length pivot.now.multipliers) pivot.now }
    requires sum { IfSome sum.old (λ s. IsSum modulus.now (length pivot.now.entries) (length pivot.now.multipliers) s) }
    ensures { IsCleared modulus.now column pivot.now sum.old sum.new }
{
    if let Some(sum) = sum {
        let factor = modulus.neg(sum.entries.entries()[column]);
        sum.add_multiple(factor, pivot, modulus);
    }
}

impl From<OutOfMemory> for EliminationFault {
    ghost use Rattle.std.specs.Prelude.{◌≡◌};
    ghost use Rattle.matrix_elimination.specs.declared.elimination.EliminationFault.TheVariants as elimination_fault;

    ghost from_gives = { λ _ e. e ≡ elimination_fault.OutOfMemory };

    fn from(_refused: OutOfMemory) -> EliminationFault {
        EliminationFault::OutOfMemory
    }
}

impl<T: Drop> From<AllocFailed<T>> for EliminationFault {
    ghost use Rattle.std.specs.Prelude.{◌≡◌};
    ghost use Rattle.matrix_elimination.specs.declared.elimination.EliminationFault.TheVariants as elimination_fault;

    ghost from_gives = { λ _ e. e ≡ elimination_fault.OutOfMemory };

    fn from(_refused: AllocFailed<T>) -> EliminationFault {
        EliminationFault::OutOfMemory
    }
}

impl From<Composite> for EliminationFault {
    ghost use Rattle.std.specs.Prelude.{◌≡◌};
    ghost use Rattle.matrix_elimination.specs.declared.elimination.EliminationFault.TheVariants as elimination_fault;

    ghost from_gives = { λ fault e. e ≡ elimination_fault.Composite fault };

    fn from(fault: Composite) -> EliminationFault {
        EliminationFault::Composite(fault)
    }
}
