//! A run of the board on one thread.

ghost use Rattle.std.specs.Prelude.{◌≡◌, ◌+◌, List, length, OnOk, IfErr};
ghost use Rattle.sector_forward.specs.Fault.{HasCause};
ghost use Rattle.sector_machine.specs.Machine.{Event, LeadOn, IsDone, forward_count};
ghost use Rattle.reduction_core.specs.Records.{Serves};
ghost use Rattle.kira_app.specs.Run.{IsNext, HasRunOrWantsMemory};

use field_word::Modulus;
use reduction_core::{Board, ForwardFault, Task};
use sector_machine::laws::events_are_counted;
use std::sync::ledger::Ledger;
use step_counter::Steps;

/// Takes the ready task, does its work and lets the board take the record, until the board is done. The
/// modulus is the board's. Each unit that has no forward rows yet takes one step.
///
/// # Errors
///
/// `Composite` only with a divisor of the modulus that lies between 1 and it; the board then stands after
/// some events. After `OutOfMemory` the board is to be opened again. Its modulus and its order stay in any
/// case.
pub fn run_alone<L: Ledger>(
    board: &mut Board,
    modulus: Modulus,
    steps: &mut Steps<L>,
) -> Result<(), ForwardFault>
    requires { modulus ≡ board.old.modulus }
    ensures done { OnOk result (IsDone board.new.state) }
    ensures run { OnOk result ((events : List Event) ×
        LeadOn board.old.modulus board.old.order board.old.state events board.new.state) }
    ensures steps { OnOk result
        (steps.new + forward_count board.old.state ≡ steps.old + length board.old.state.units) }
    ensures modulus { board.new.modulus ≡ board.old.modulus }
    ensures order { board.new.order ≡ board.old.order }
    ensures stopped { IfErr result (HasRunOrWantsMemory board.old board.new) }
    ensures cause { IfErr result (HasCause modulus) }
{
    events_are_counted();
    board.holds();
    while let Some(task) = board.ready(&[])? {
        take_turn(board, task, steps)?;
        board.holds();
    }
    Ok(())
}

// Does the work of the task in turn, and lets the board take the record.
fn take_turn<L: Ledger>(
    board: &mut Board,
    task: Task,
    steps: &mut Steps<L>,
) -> Result<(), ForwardFault>
    requires modulus { task.modulus ≡ board.old.modulus }
    requires serves { Serves board.old.modulus board.old.order board.old.state task }
    ensures next { OnOk result (IsNext board.old steps.old board.new steps.new) }
    ensures modulus { board.new.modulus ≡ board.old.modulus }
    ensures order { board.new.order ≡ board.old.order }
    ensures stopped { IfErr result (HasRunOrWantsMemory board.old board.new) }
    ensures cause { IfErr result (HasCause board.old.modulus) }
{
    let (_, entry) = task.compute(steps)?;
    board.apply(entry)?;
    Ok(())
}
