//! Laws of the reading of a job.

ghost use Rattle.job_outline.specs.Laws.{OutlineIsSingle, OutlinesHaveAModulus, OneSelection, OutlinesNeverSayMissing};

/// The same trees and words are read as one outline at most, or have one first fault at most, and never
/// both. It does nothing when it runs.
pub fn outline_is_single()
    ensures { OutlineIsSingle }
{
    kinematics_schema::reading_is_single();
    family_schema::reading_is_single();
}

/// The modulus of every outline is one that serves, and the same trees select the same, whatever the words
/// are. It does nothing when it runs.
pub fn outlines_have_a_modulus()
    ensures modulus { OutlinesHaveAModulus }
    ensures selection { OneSelection }
{
    kinematics_schema::reading_is_single();
    family_schema::reading_is_single();
}

/// The trees and words of a job are not refused as a file that is missing: only the loading of files says so.
/// It does nothing when it runs.
pub fn outlines_never_say_missing()
    ensures { OutlinesNeverSayMissing }
{
    kinematics_schema::reading_never_says_missing();
    family_schema::reading_never_says_missing();
    job_schema::reading_never_says_missing();
}
