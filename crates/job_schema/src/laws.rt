//! Laws of the reading of the jobs file and of the words.

ghost use Rattle.job_schema.specs.Laws.{JobsNeverSayMissing, PointsNeverSayMissing};

/// Neither a tree nor a word is refused as a file that is missing. It does nothing when it runs.
pub fn reading_never_says_missing()
    ensures jobs { JobsNeverSayMissing }
    ensures points { PointsNeverSayMissing }
{}
