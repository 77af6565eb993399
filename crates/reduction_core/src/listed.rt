//! Rows with the units of what they show, so that nobody has to look through the rows for these.

ghost use Rattle.std.specs.Prelude.{◌≡◌, ◌↔◌, Contains, IsTrue, IfOk, OnOk};
ghost use Rattle.sector_machine.specs.Machine.{Ascends, AreUnitsOf};
ghost use Rattle.reduction_core.specs.Opening.{ShowsUnit, AreListed};

use integral_index::Unit;
use out_of_memory::OutOfMemory;
use sparse_row::Row;
use std::alloc::Global;
use std::marker::Model;

/// Rows, and beside them the units of all integrals that they show, ascending. Contracts see the rows.
#[derive(Debug, Drop)]
pub(crate) struct ListedRows {
    rows: Vec<Row>,
    units: Vec<Unit>,
}

impl Model for ListedRows {
    ghost use Rattle.std.specs.Prelude.{List};
    ghost use Rattle.std.specs.Coded.{coded_list};
    ghost use Rattle.sparse_row.specs.Row.{Row as RowValue, row_code};
    ghost use Rattle.sector_machine.specs.Machine.{AreUnitsOf};

    ghost Value = { List RowValue };

    ghost coded = { coded_list row_code };

    ghost view = { λ a. a.rows.items };

    ghost invariant = { λ a. AreUnitsOf a.rows.items a.units.items };
}

impl ListedRows {
    ghost use Rattle.std.specs.Prelude.{◌≡◌, ◌↔◌, [], ◌∷◌, ◌++◌, IsTrue, IfOk};
    ghost use Rattle.sector_machine.specs.Machine.{AreUnitsOf};
    ghost use Rattle.reduction_core.specs.Opening.{ShowUnit};

    /// No rows.
    pub(crate) fn new(alloc: Global) -> ListedRows
        ensures { result ≡ [] }
    {
        ListedRows {
            rows: Vec::new(alloc),
            units: Vec::new(alloc),
        }
    }

    /// These rows.
    pub(crate) fn of(rows: Vec<Row>) -> Result<ListedRows, OutOfMemory>
        ensures { IfOk result (λ listed. listed ≡ rows.items) }
    {
        let units = units_of(*rows.allocator(), &rows)?;
        Ok(ListedRows { rows, units })
    }

    /// These rows with one more behind them.
    pub(crate) fn with(self, row: Row) -> Result<ListedRows, OutOfMemory>
        ensures { IfOk result (λ listed. listed ≡ self ++ row ∷ []) }
    {
        let mut rows = self.rows;
        let mut units = self.units;
        list_units(&mut units, &row)?;
        rows.push(row)?;
        Ok(ListedRows { rows, units })
    }

    /// The rows.
    pub(crate) fn rows(&self) -> &[Row]
        ensures { result.now ≡ self.now }
    {
        &self.rows
    }

    /// The units of all integrals that they show, ascending.
    pub(crate) fn units(&self) -> &[Unit]
        ensures { AreUnitsOf self.now result.now }
    {
        &self.units
    }

    /// Whether one of them shows an integral of the unit.
    pub(crate) fn show_unit(&self, unit: Unit) -> bool
        ensures { IsTrue result ↔ ShowUnit self.now unit }
    {
        is_listed(&self.units, unit)
    }
}

fn is_listed(units: &[Unit], unit: Unit) -> bool
    requires { Ascends units.now }
    ensures { IsTrue result ↔ Contains units.now unit }
{
    match units.binary_search_by(|other| other.compare(&unit)) {
        Ok(_) => true,
        Err(_) => false,
    }
}

/// The units of all integrals that the rows show, ascending.
pub(crate) fn units_of(alloc: Global, rows: &[Row]) -> Result<Vec<Unit>, OutOfMemory>
    ensures { IfOk result (λ units. AreUnitsOf rows.now units.items) }
{
    let mut units = Vec::new(alloc);
    for row in rows {
        list_units(&mut units, row)?;
    }
    Ok(units)
}

// Lists the units of what the row shows too.
fn list_units(units: &mut Vec<Unit>, row: &Row) -> Result<(), OutOfMemory>
    requires { Ascends units.old.items }
    ensures { OnOk result (AreListed (ShowsUnit row.now) units.old.items units.new.items) }
{
    let terms = row.terms();
    for term in terms {
        list_unit(units, term.integral.unit())?;
    }
    Ok(())
}

// Lists the unit, unless it is there.
fn list_unit(units: &mut Vec<Unit>, unit: Unit) -> Result<(), OutOfMemory>
    requires { Ascends units.old.items }
    ensures { OnOk result (AreListed (λ other. unit ≡ other) units.old.items units.new.items) }
{
    match units.binary_search_by(|other| other.compare(&unit)) {
        Ok(_) => {}
        Err(place) => units.insert(place, unit)?,
    }
    Ok(())
}
