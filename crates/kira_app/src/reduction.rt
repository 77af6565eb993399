//! The table of a plan, and its text.

ghost use Rattle.std.specs.Prelude.{◌≡◌, IfOk, IfErr};
ghost use Rattle.kira_app.specs.TopClauses.{IsSolved, IsTextOf, TakesUnits, IsReductionFault};

use crate::{Status, run_alone};
use job_equations::laws::equations_are_unique;
use job_plan::Plan;
use reduction_core::{Board, Table};
use sector_machine::laws::{events_are_counted, events_keep_the_invariant};
use std::alloc::Global;
use std::sync::ledger::Ledger;
use step_counter::Steps;
use table_text::text;

/// The one reduced list of the plan's equations, by a run of the board. Each unit of the equations takes one
/// step.
///
/// # Errors
///
/// `Composite` only with a divisor of the modulus, and `OutOfMemory`.
pub(crate) fn reduced<L: Ledger>(
    alloc: Global,
    plan: &Plan,
    steps: &mut Steps<L>,
) -> Result<Table, Status>
    ensures solved { IfOk result (IsSolved plan.now) }
    ensures steps { IfOk result (λ _. TakesUnits steps.old steps.new plan.now) }
    ensures cause { IfErr result (IsReductionFault plan.now.modulus) }
{
    equations_are_unique();
    events_keep_the_invariant();
    events_are_counted();
    let equations = plan.equations()?;
    let mut board = Board::open(alloc, equations, plan.modulus(), plan.order())?;
    run_alone(&mut board, plan.modulus(), steps)?;
    Ok(board.table()?)
}

/// The text of the plan's table: of the one reduced list of its equations, for its selection. Each unit of
/// the equations takes one step.
///
/// # Errors
///
/// `Composite` only with a divisor of the modulus, and `OutOfMemory`.
pub(crate) fn table_of<L: Ledger>(
    alloc: Global,
    plan: &Plan,
    steps: &mut Steps<L>,
) -> Result<Vec<u8>, Status>
    ensures text { IfOk result (λ bytes. IsTextOf plan.now bytes.items) }
    ensures steps { IfOk result (λ _. TakesUnits steps.old steps.new plan.now) }
    ensures cause { IfErr result (IsReductionFault plan.now.modulus) }
{
    let table = reduced(alloc, plan, steps)?;
    let names = plan.names();
    Ok(text(alloc, &table, names, plan.zero_lists(), plan.selection())?)
}
