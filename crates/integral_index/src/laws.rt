//! The laws of the comparisons: each is the contract of a function that does nothing.

ghost use Rattle.integral_index.specs.Laws.{OrderIsTotal, OrderTellsApart, OrderRefinesUnits, UnitOrderIsTotal, UnitOrderTellsApart, FieldsAreTotal, FieldsTellApart};

use crate::Order;

/// The order of integrals is total: of two, each is as far above the other as that is below it; it
/// is transitive; and integrals that are equal in it compare alike with every other.
pub fn order_is_total(order: Order)
    ensures { OrderIsTotal order }
{}

/// Two integrals are equal in the order exactly where they are the same integral.
pub fn order_tells_apart(order: Order)
    ensures { OrderTellsApart order }
{}

/// Integrals of different units are compared as their units are.
pub fn order_refines_units(order: Order)
    ensures { OrderRefinesUnits order }
{}

/// The order of units is total, and two units are equal in it exactly where they are the same.
pub fn unit_order_is_total()
    ensures total { UnitOrderIsTotal }
    ensures apart { UnitOrderTellsApart }
{}

/// The comparison by fields, by which rows look integrals up, is total, and two integrals are equal
/// in it exactly where they are the same.
pub fn fields_are_total()
    ensures total { FieldsAreTotal }
    ensures apart { FieldsTellApart }
{}
