//! Laws of the reading of the file of integral families.

ghost use Rattle.family_schema.specs.Laws.{FamiliesAreSingle, FamiliesNeverSayMissing};

/// A tree is read as one list of families at most, or has one first fault at most, and never both, where
/// the kinematics are the same. It does nothing when it runs.
pub fn reading_is_single()
    ensures { FamiliesAreSingle }
{
    input_schema::readings_are_single();
}

/// No tree is refused as a file that is missing. It does nothing when it runs.
pub fn reading_never_says_missing()
    ensures { FamiliesNeverSayMissing }
{}
