//! What the definitions say of some words, as the contracts of a function that does nothing.

ghost use Rattle.command_line.specs.Laws.{PlainWordsStand, DashesEndOptions};

/// Words without options are taken as they stand: the first is the job file, and the others are its overrides.
/// It does nothing when it runs.
pub fn plain_words_stand()
    ensures { PlainWordsStand }
{}

/// `--` ends the options and is no positional. It does nothing when it runs.
pub fn dashes_end_options()
    ensures { DashesEndOptions }
{}
