//! Laws of the reading of the file of kinematics.

ghost use Rattle.kinematics_schema.specs.Laws.{KinematicsAreSingle, KinematicsNeverSayMissing};

/// A tree is read as one kinematics at most, or has one first fault at most, and never both. It does nothing
/// when it runs.
pub fn reading_is_single()
    ensures { KinematicsAreSingle }
{
    input_schema::readings_are_single();
}

/// No tree is refused as a file that is missing. It does nothing when it runs.
pub fn reading_never_says_missing()
    ensures { KinematicsNeverSayMissing }
{}
