//! The laws of the back substitution: each is the contract of a function that does nothing.

ghost use Rattle.back_substitute.specs.Laws.{OneSubstitution, ServesAllBelow, NothingNew};

/// Two back substitutions of the same rows with the same rows below are equal, row by row: no choice
/// of an order of work can show in what comes out. The rows show only integrals that the input or the
/// rows below show.
pub fn substitution_is_determined()
    ensures rows { OneSubstitution }
    ensures nothing_new { NothingNew }
{}

/// The rows below may be any among the reduced rows of the lesser units, as long as they have all
/// pivots that the input shows: the substituted rows then show no pivot of any reduced row, and with
/// all of these they have the span of the input with them.
pub fn few_rows_below_serve()
    ensures { ServesAllBelow }
{}
