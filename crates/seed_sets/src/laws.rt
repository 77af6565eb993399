//! Laws of the list of seeds: the contracts of functions that do nothing.

ghost use Rattle.seed_sets.specs.Seeds.{OneListAscends, NoListIsLonger};

use integral_index::Order;

/// There is one list of given members that ascends, each once: what `list` promises of its answer
/// leaves no choice.
pub fn one_list_ascends(order: Order)
    ensures { OneListAscends order }
{}

/// A list that ascends is no longer than another that has all of its members, and perhaps more: so where there
/// are more seeds than are allowed, no list of all of them is short enough.
pub fn no_list_is_longer(order: Order)
    ensures { NoListIsLonger order }
{}
