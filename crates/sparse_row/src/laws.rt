//! The laws of rows and of their lists of terms: each is the contract of a function that does nothing.

ghost use Rattle.sparse_row.specs.Laws.{CoefficientsDetermineRow, GreatestIsUnique, TotalsDetermineTerms, RowHasTotals};

/// Two rows of one order with the same coefficients are equal, and a row has at most one greatest
/// integral.
pub fn coefficients_determine_a_row()
    ensures row { CoefficientsDetermineRow }
    ensures greatest { GreatestIsUnique }
{}

/// Two descending lists of terms with the same totals are equal, and the row of a list has its
/// totals as coefficients. So a row has one list of terms.
pub fn totals_determine_terms()
    ensures list { TotalsDetermineTerms }
    ensures row { RowHasTotals }
{}
