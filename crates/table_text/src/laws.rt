//! What a text tells of its table: the contract of functions that do nothing.

ghost use Rattle.table_text.specs.Laws.{TextTellsSelection, TextTellsTerms, TextTellsNormalForms, NamesArePlain};

/// The text of a table tells the selection and, for each selected integral, the terms of its normal
/// form: whatever table has this text gives the same selected integrals, and to each the same
/// masters with the same coefficients. The families need names that are plain and differ, for each
/// family of which a selected integral or a master is.
pub fn text_tells_normal_forms()
    ensures selection { TextTellsSelection }
    ensures terms { TextTellsTerms }
    ensures forms { TextTellsNormalForms }
{}

/// The names of the input, of letters, digits and `_`, are plain.
pub fn names_are_plain()
    ensures { NamesArePlain }
{}
