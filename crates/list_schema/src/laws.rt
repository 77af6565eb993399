//! Laws of the definitions: contracts of functions that do nothing.

ghost use Rattle.list_schema.specs.Laws.{PiecesMakeTheText, PiecesHaveNoComma, ListsNeverSayMissing};

/// The pieces that a text is cut into, joined by commas, are the text, and none of them has a comma. So they
/// are what stands between its commas.
pub fn pieces_are_cut()
    ensures whole { PiecesMakeTheText }
    ensures cut { PiecesHaveNoComma }
{}

/// No text of a list file is refused as a file that is missing. It does nothing when it runs.
pub fn reading_never_says_missing()
    ensures { ListsNeverSayMissing }
{}
