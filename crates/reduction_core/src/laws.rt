//! The laws of reduced lists and normal forms: each is the contract of a function that does nothing.

ghost use Rattle.reduction_core.specs.Laws.{OneReducedList, SpanDeterminesReducedList, NormalFormIsRow, NormalFormShowsNoPivot, MastersStay, NormalFormIsEqual, NormalFormIsOnly, MastersAreListed, MastersAscend};

/// There is only one reduced list of given equations, for every modulus, prime or not: no choice of
/// an elimination, of its order or of a worker can show in it. Source: in linear algebra, the
/// uniqueness of the reduced row echelon form.
pub fn reduced_list_is_unique()
    ensures { OneReducedList }
{}

/// Two lists of equations with the same span have the same reduced list: leaving out an equation
/// that depends on others, or adding a combination of them, changes nothing.
pub fn span_determines_reduced_list()
    ensures { SpanDeterminesReducedList }
{}

/// Modulo a number above 1, a normal form under a table of residues is a row of residues.
pub fn normal_form_is_row()
    ensures { NormalFormIsRow }
{}

/// No normal form shows a pivot of the table.
pub fn normal_form_shows_no_pivot()
    ensures { NormalFormShowsNoPivot }
{}

/// Where the table shows no integral of a zero sector, each integral that a normal form shows is its
/// own normal form.
pub fn masters_stay()
    ensures { MastersStay }
{}

/// An integral outside the zero sectors differs from its normal form by a combination of the
/// table's rows, and no other row that shows no pivot does.
pub fn normal_form_is_the_reduction()
    ensures equal { NormalFormIsEqual }
    ensures only { NormalFormIsOnly }
{}

/// The list of the masters has just the integrals that normal forms of the selection show, and it
/// ascends.
pub fn masters_are_listed()
    ensures members { MastersAreListed }
    ensures ascend { MastersAscend }
{}
