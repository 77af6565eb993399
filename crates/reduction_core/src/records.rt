//! Records: the outcome of a task, by which a board goes on.

ghost use Rattle.std.specs.Prelude.{◌≡◌};
ghost use Rattle.sector_machine.specs.Machine.{unit_of_event};
ghost use Rattle.sector_forward.specs.Elimination.{IsElimination};
ghost use Rattle.back_substitute.specs.Substitution.{IsSubstitution};
ghost use Rattle.reduction_core.specs.Records.{event_of};

use crate::rows::Rows;
use back_substitute::Substituted;
use integral_index::Unit;
use sector_forward::Eliminated;
use sparse_row::Row;

/// The rows that came out for a unit. A record alone says nothing of where they came from: one that
/// was read from a file, or computed elsewhere, may hold any rows.
#[derive(Debug, Drop)]
pub enum Record {
    /// Of the forward elimination: the rows with their pivots in the unit, and the rest, which shows
    /// nothing of it.
    Forward {
        /// The unit.
        unit: Unit,
        /// The rows of the unit.
        rows: Rows,
        /// The rows that are left to lesser units.
        rest: Rows,
    },
    /// Of the back substitution: the rows of the unit without the pivots of lesser units.
    Back {
        /// The unit.
        unit: Unit,
        /// The rows of the unit.
        rows: Rows,
    },
}

impl Record {
    /// The unit whose rows these are.
    pub fn unit(&self) -> Unit
        ensures { result ≡ unit_of_event (event_of self.now) }
    {
        match self {
            Record::Forward { unit, .. } => *unit,
            Record::Back { unit, .. } => *unit,
        }
    }

    /// The input of an elimination, and the record of it. No value is changed, and it takes no memory.
    pub fn of_forward(e: Eliminated) -> (Vec<Row>, Record)
        ensures input { result.0.items ≡ e.input }
        ensures value { result.1 ≡ Record.Forward e.unit e.rows e.rest }
        ensures elimination { IsElimination e.modulus e.order e.unit e.input e.rows e.rest }
    {
        let unit = e.unit();
        let (input, rows, rest) = e.into_parts();
        let outcome = Record::Forward {
            unit,
            rows: Rows::of(rows),
            rest: Rows::of(rest),
        };
        (input, outcome)
    }

    /// The input and the rows below of a back substitution, and the record of it. No value is changed,
    /// and it takes no memory.
    pub fn of_back(b: Substituted) -> (Vec<Row>, Vec<Row>, Record)
        ensures input { result.0.items ≡ b.input }
        ensures below { result.1.items ≡ b.below }
        ensures value { result.2 ≡ Record.Back b.unit b.rows }
        ensures substitution { IsSubstitution b.modulus b.order b.unit b.input b.below b.rows }
    {
        let unit = b.unit();
        let (input, below, rows) = b.into_parts();
        let outcome = Record::Back {
            unit,
            rows: Rows::of(rows),
        };
        (input, below, outcome)
    }
}
