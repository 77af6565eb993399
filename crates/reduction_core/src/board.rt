//! The board of a reduction: a state of the machine of units, with its modulus and order.

use crate::accepting::accepts;
use crate::applying::after_record;
use crate::ascending::ascending;
use crate::opening::opened;
use crate::records::Record;
use crate::slots::{self, Slot};
use crate::table::Table;
use crate::task::Task;
use crate::turns::task_in_turn;
use field_word::Modulus;
use integral_index::{Order, Unit};
use out_of_memory::OutOfMemory;
use sparse_row::Row;
use std::alloc::Global;
use std::marker::Model;
use std::mem;

/// The state of a reduction: which rows wait, and which units have their forward rows and their back
/// rows. It is moved by events: see `sector_machine::laws`. Source: arXiv:1705.05610, where sectors
/// are reduced one by one.
#[derive(Debug, Drop)]
pub struct Board {
    slots: Vec<Slot>,
    modulus: Modulus,
    order: Order,
}

// Clauses see the state of the machine, the modulus and the order.
impl Model for Board {
    ghost use Rattle.reduction_core.specs.Board.{Board as BoardValue, board_code};

    ghost Value = { BoardValue };

    ghost coded = { board_code };

    ghost use Rattle.reduction_core.specs.KeptBoard.{shown, IsKept};

    ghost view = { shown };

    ghost invariant = { IsKept };
}

impl Board {
    ghost use Rattle.std.specs.Prelude.{◌≡◌, ◌↔◌, ⊤, None, List, [], length, All, IsTrue, IfOk, OnOk, OnErr, MatchOption};
    ghost use Rattle.sparse_row.specs.Row.{Row as RowValue, IsRow};
    ghost use Rattle.sparse_row.specs.ReducedList.{IsReduced};
    ghost use Rattle.sector_machine.specs.State.{State};
    ghost use Rattle.sector_machine.specs.Machine.{Opens, Leads, IsDone, forward_count, back_count};
    ghost use Rattle.sector_machine.specs.Tasks.{IsTableOf};
    ghost use Rattle.sector_machine.specs.Invariant.{HoldsOfRows, Holds};
    ghost use Rattle.reduction_core.specs.Records.{event_of, IsAccepted, IsComputed, Serves};
    ghost use Rattle.reduction_core.specs.Applying.{IsAfter};
    ghost use Rattle.reduction_core.specs.Ready.{NoForward, NoBack, IsReady};

    /// The opening of the rows: each waits at the unit of its greatest integral. Empty rows are dropped.
    pub fn open(
        alloc: Global,
        rows: Vec<Row>,
        modulus: Modulus,
        order: Order,
    ) -> Result<Board, OutOfMemory>
        requires { All (IsRow modulus order) rows.items }
        ensures opens { IfOk result (λ board. Opens modulus order rows.items board.state) }
        ensures modulus { IfOk result (λ board. board.modulus ≡ modulus) }
        ensures order { IfOk result (λ board. board.order ≡ order) }
    {
        let _p = modulus.value();
        let slots = opened(alloc, rows, order)?;
        Ok(Board {
            slots,
            modulus,
            order,
        })
    }

    /// How many units there are.
    pub fn unit_count(&self) -> u64
        ensures { result ≡ length self.now.state.units }
    {
        self.slots.len() as u64
    }

    /// How many units have forward rows.
    pub fn forward_count(&self) -> u64
        ensures { result ≡ forward_count self.now.state }
    {
        slots::forward_count(&self.slots) as u64
    }

    /// How many units have back rows.
    pub fn back_count(&self) -> u64
        ensures { result ≡ back_count self.now.state }
    {
        slots::back_count(&self.slots) as u64
    }

    /// Whether all units have back rows, so that no event may happen any more.
    pub fn is_done(&self) -> bool
        ensures { IsTrue result ↔ IsDone self.now.state }
    {
        self.back_count() == self.unit_count()
    }

    /// The task of the greatest unit outside the busy ones for which a forward event may happen; where
    /// there is none, of the least unit outside them for which a back event may happen. `None` exactly
    /// where there is neither, and with nothing busy exactly where the board is done. A record that
    /// meets the task is accepted, and was computed from the rows of its event.
    pub fn ready(&self, busy: &[Unit]) -> Result<Option<Task>, OutOfMemory>
        ensures task { IfOk result (λ ready. MatchOption ready
            (NoForward self.now.order self.now.state busy.now × NoBack self.now.state busy.now)
            (λ task. (task.modulus ≡ self.now.modulus)
            × IsReady self.now.order self.now.state busy.now task.work)) }
        ensures done { IfOk result (λ ready. busy.now ≡ [] → (ready ≡ None) ↔ IsDone self.now.state) }
        ensures serves { IfOk result (λ ready.
            MatchOption ready ⊤ (Serves self.now.modulus self.now.order self.now.state)) }
    {
        let alloc = *self.slots.allocator();
        task_in_turn(alloc, &self.slots, busy, self.order, self.modulus)
    }

    /// Whether the record is accepted: its event may happen for its unit, its rows have distinct pivots of
    /// the unit, each 1 and in no other of them, and all of its rows have this board's order, residues as
    /// coefficients, and integrals that the rows of the event show. A rest shows nothing of the unit, and
    /// no row of it is empty; back rows have the pivots of the forward rows, and show no pivot of another
    /// unit's back rows. A record that meets its event is accepted. It takes no memory.
    pub fn accepts(&self, entry: &Record) -> bool
        ensures value { IsTrue result ↔ IsAccepted self.now.modulus self.now.order self.now.state entry.now }
        ensures event { (after : State) → Leads self.now.modulus self.now.order (event_of entry.now) self.now.state after →
            IsTrue result }
    {
        accepts(&self.slots, entry, self.order, &self.modulus)
    }

    /// The board with the rows of the record, which is accepted. Where they were computed from the task of
    /// the unit, as `Task::compute` says of the records that it gives, it is the board after the event.
    ///
    /// After `OutOfMemory` the board has no units, and is to be opened again.
    pub fn apply(&mut self, entry: Record) -> Result<(), OutOfMemory>
        requires { IsAccepted self.old.modulus self.old.order self.old.state entry }
        ensures after { OnOk result (IsAfter self.old.order (event_of entry) self.old.state self.new.state) }
        ensures event { OnOk result (IsComputed self.old.modulus self.old.order self.old.state entry →
            Leads self.old.modulus self.old.order (event_of entry) self.old.state self.new.state) }
        ensures refused { OnErr result (self.new.state.units ≡ []) }
        ensures modulus { self.new.modulus ≡ self.old.modulus }
        ensures order { self.new.order ≡ self.old.order }
    {
        let alloc = *self.slots.allocator();
        let slots = mem::replace(&mut self.slots, Vec::new(alloc));
        self.slots = after_record(slots, entry, self.order)?;
        Ok(())
    }

    /// The table of the back rows, ascending. It is the reduced list of all equations from whose
    /// opening a run leads to this state: see `sector_machine::laws::done_is_reduced`.
    pub fn table(&self) -> Result<Table, OutOfMemory>
        requires { IsDone self.now.state }
        ensures table { IfOk result (λ table. IsTableOf self.now.order self.now.state table.rows) }
        ensures modulus { IfOk result (λ table. table.modulus ≡ self.now.modulus) }
        ensures order { IfOk result (λ table. table.order ≡ self.now.order) }
        ensures reduced { IfOk result (λ table. (equations : List RowValue) →
            Holds self.now.modulus self.now.order equations self.now.state →
            IsReduced self.now.modulus self.now.order equations table.rows) }
        ensures only { IfOk result (λ table. (equations other : List RowValue) →
            Holds self.now.modulus self.now.order equations self.now.state →
            IsReduced self.now.modulus self.now.order equations other → other ≡ table.rows) }
    {
        let alloc = *self.slots.allocator();
        let rows = slots::back_rows(alloc, &self.slots)?;
        let rows = ascending(alloc, rows, self.order)?;
        Ok(Table::of_rows(rows, self.modulus, self.order))
    }

    /// The state of each board could be one of some equations, as far as its rows tell: this call does
    /// nothing, and its contract is that law.
    pub fn holds(&self)
        ensures { (equations : List RowValue) ×
            HoldsOfRows self.now.modulus self.now.order equations self.now.state }
    {
        let _order = self.order;
    }

    /// The modulus of the coefficients.
    pub fn modulus(&self) -> Modulus
        ensures { result ≡ self.now.modulus }
    {
        self.modulus
    }

    /// The order of the integrals.
    pub fn order(&self) -> Order
        ensures { result ≡ self.now.order }
    {
        self.order
    }
}
