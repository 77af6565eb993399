//! The laws of the forward elimination: each is the contract of a function that does nothing.

ghost use Rattle.sector_forward.specs.Laws.{OnePivots, OneRest, NothingNew};

/// Two eliminations of the same rows have the same pivots, and their rests have the same span: no
/// choice of an order of elimination can show in what lesser units get. Rows and rest show only
/// integrals that the rows taken show.
pub fn elimination_is_determined()
    ensures pivots { OnePivots }
    ensures rest { OneRest }
    ensures nothing_new { NothingNew }
{}
