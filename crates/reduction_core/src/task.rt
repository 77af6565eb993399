//! Tasks: the rows of a unit, with what is to be computed from them.

ghost use Rattle.std.specs.Prelude.{◌≡◌, ◌↔◌, ◌+◌, All, IsTrue, IfOk, IfErr};
ghost use Rattle.integral_index.specs.declared.Order.{Order as OrderValue};
ghost use Rattle.sector_forward.specs.Elimination.{IsTaken};
ghost use Rattle.sector_forward.specs.Fault.{HasCause};
ghost use Rattle.back_substitute.specs.Substitution.{AreRules, AreBelow};
ghost use Rattle.reduction_core.specs.Task.{MeetsTask};

use crate::records::Record;
use crate::rows::Rows;
use back_substitute::substitute;
use field_word::Modulus;
use integral_index::Unit;
use out_of_memory::OutOfMemory;
use sector_forward::{ForwardFault, eliminate};
use sparse_row::Row;
use std::marker::Model;
use std::sync::ledger::Ledger;
use step_counter::Steps;

/// What is to be computed, and from which rows.
#[derive(Debug, Drop)]
pub enum Work {
    /// The forward elimination of a unit.
    Forward {
        /// The unit.
        unit: Unit,
        /// The rows that it takes: their greatest integrals are of the unit.
        rows: Rows,
    },
    /// The back substitution of a unit.
    Back {
        /// The unit.
        unit: Unit,
        /// The forward rows of the unit.
        rows: Rows,
        /// The back rows of lesser units, whose pivots are cleared out of its rows.
        below: Rows,
    },
}

/// A task: a piece of work that can be done by anyone, since it holds all that it needs. Its type
/// keeps that the rows meet the conditions of `eliminate` or of `substitute` for its modulus.
#[derive(Debug, Drop)]
pub struct Task {
    /// The modulus of the coefficients.
    pub modulus: Modulus,
    /// What is to be computed.
    pub work: Work,
}

// Clauses see the modulus and the work.
impl Model for Task {
    ghost use Rattle.reduction_core.specs.Task.{Task as TaskValue, task_code};

    ghost Value = { TaskValue };

    ghost coded = { task_code };

    ghost use Rattle.reduction_core.specs.KeptTask.{shown, IsKept};

    ghost view = { shown };

    ghost invariant = { IsKept };
}

impl Task {
    ghost use Rattle.std.specs.Prelude.{◌≡◌, ◌↔◌, ◌+◌, All, IsTrue, IfOk, IfErr};
    ghost use Rattle.integral_index.specs.declared.Order.{Order as OrderValue};
    ghost use Rattle.sector_forward.specs.Elimination.{IsTaken};
    ghost use Rattle.sector_forward.specs.Fault.{HasCause};
    ghost use Rattle.back_substitute.specs.Substitution.{AreRules, AreBelow};
    ghost use Rattle.reduction_core.specs.Task.{Task as TaskValue, unit_of_work, step_count, MeetsTask, MayBreakOff};

    // The task of the forward elimination of a unit from these rows.
    pub(crate) fn forward(unit: Unit, rows: Vec<Row>, modulus: Modulus) -> Task
        requires { (order : OrderValue) × All (IsTaken modulus order unit) rows.items }
        ensures { result ≡ record { modulus = modulus; work = Work.Forward unit rows.items } }
    {
        let _p = modulus.value();
        Task {
            modulus,
            work: Work::Forward {
                unit,
                rows: Rows::of(rows),
            },
        }
    }

    // The task of the back substitution of a unit with these rows, by the rows below.
    pub(crate) fn back(unit: Unit, rows: Vec<Row>, below: Vec<Row>, modulus: Modulus) -> Task
        requires { (order : OrderValue) × AreRules modulus order unit rows.items × AreBelow modulus order unit below.items }
        ensures { result ≡ record { modulus = modulus; work = Work.Back unit rows.items below.items } }
    {
        let _p = modulus.value();
        Task {
            modulus,
            work: Work::Back {
                unit,
                rows: Rows::of(rows),
                below: Rows::of(below),
            },
        }
    }

    /// The unit of the task.
    pub fn unit(&self) -> Unit
        ensures { result ≡ unit_of_work self.now.work }
    {
        match &self.work {
            Work::Forward { unit, .. } => *unit,
            Work::Back { unit, .. } => *unit,
        }
    }

    /// Whether both are the same task: equal modulus, kind, unit and rows, and for a back substitution
    /// equal rows below.
    pub fn same(&self, other: &Task) -> bool
        ensures { IsTrue result ↔ (self.now ≡ other.now) }
    {
        self.modulus == other.modulus && self.work.same(&other.work)
    }

    /// The same task.
    pub fn copy(&self) -> Result<Task, OutOfMemory>
        ensures { IfOk result (λ task. task ≡ self.now) }
    {
        let work = self.work.copy()?;
        Ok(Task {
            modulus: self.modulus,
            work,
        })
    }

    /// Does the work. The task comes back, with a record that meets its event, as
    /// `sector_machine::laws::computed_rows_serve` says. A forward elimination is one step, and a back
    /// substitution none.
    ///
    /// `Composite` only in a forward elimination, with a divisor of the modulus that lies between 1 and it.
    pub fn compute<L: Ledger>(self, steps: &mut Steps<L>) -> Result<(Task, Record), ForwardFault>
        ensures task { IfOk result (λ done. done.0 ≡ self) }
        ensures event { IfOk result (λ done. MeetsTask done.0 done.1) }
        ensures cause { IfErr result (λ fault. HasCause self.modulus fault) }
        ensures no_inverse { IfErr result (λ fault. MayBreakOff self.work fault) }
        ensures steps { steps.new ≡ steps.old + step_count self.work }
    {
        let modulus = self.modulus;
        match self.work {
            Work::Forward { unit, rows } => eliminated(unit, rows.into_vec(), modulus, steps),
            Work::Back { unit, rows, below } => {
                substituted(unit, rows.into_vec(), below.into_vec(), modulus)
            }
        }
    }
}

impl Work {
    ghost use Rattle.std.specs.Prelude.{◌≡◌, ◌↔◌, IsTrue, IfOk};

    fn same(&self, other: &Work) -> bool
        ensures { IsTrue result ↔ (self.now ≡ other.now) }
    {
        match (self, other) {
            (
                Work::Forward { unit, rows },
                Work::Forward {
                    unit: other_unit,
                    rows: other_rows,
                },
            ) => { unit == other_unit && rows.equals(other_rows) }
            (
                Work::Back { unit, rows, below },
                Work::Back {
                    unit: other_unit,
                    rows: other_rows,
                    below: other_below,
                },
            ) => unit == other_unit && rows.equals(other_rows) && below.equals(other_below),
            _ => false,
        }
    }

    fn copy(&self) -> Result<Work, OutOfMemory>
        ensures { IfOk result (λ work. work ≡ self.now) }
    {
        match self {
            Work::Forward { unit, rows } => Ok(Work::Forward {
                unit: *unit,
                rows: rows.copy()?,
            }),
            Work::Back { unit, rows, below } => Ok(Work::Back {
                unit: *unit,
                rows: rows.copy()?,
                below: below.copy()?,
            }),
        }
    }
}

// The task of a forward elimination, done.
fn eliminated<L: Ledger>(
    unit: Unit,
    rows: Vec<Row>,
    modulus: Modulus,
    steps: &mut Steps<L>,
) -> Result<(Task, Record), ForwardFault>
    requires { (order : OrderValue) × All (IsTaken modulus order unit) rows.items }
    ensures task { IfOk result (λ done. done.0 ≡ record { modulus = modulus; work = Work.Forward unit rows.items }) }
    ensures event { IfOk result (λ done. MeetsTask done.0 done.1) }
    ensures cause { IfErr result (λ fault. HasCause modulus fault) }
    ensures steps { steps.new ≡ steps.old + 1 }
{
    let alloc = *rows.allocator();
    let outcome = eliminate(alloc, unit, rows, modulus, steps)?;
    let (input, entry) = Record::of_forward(outcome);
    Ok((Task::forward(unit, input, modulus), entry))
}

// The task of a back substitution, done.
fn substituted(
    unit: Unit,
    rows: Vec<Row>,
    below: Vec<Row>,
    modulus: Modulus,
) -> Result<(Task, Record), ForwardFault>
    requires { (order : OrderValue) × AreRules modulus order unit rows.items × AreBelow modulus order unit below.items }
    ensures task { IfOk result (λ done. done.0 ≡ record { modulus = modulus; work = Work.Back unit rows.items below.items }) }
    ensures event { IfOk result (λ done. MeetsTask done.0 done.1) }
    ensures cause { IfErr result (λ fault. fault ≡ ForwardFault.OutOfMemory) }
{
    let alloc = *rows.allocator();
    let outcome = substitute(alloc, unit, rows, below, modulus)?;
    let (input, below, entry) = Record::of_back(outcome);
    Ok((Task::back(unit, input, below, modulus), entry))
}
