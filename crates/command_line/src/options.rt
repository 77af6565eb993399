//! What the matches of the command say of the options.

ghost use Rattle.std.specs.Prelude.{◌≡◌, true, false, not, map, option_map, MatchOption};
ghost use Rattle.clap.specs.Matches.{found_of};
ghost use Rattle.clap.specs.Walk.{rows_of, first_of};
ghost use Rattle.clap.specs.ValueTests.{is_unsigned_in};
ghost use Rattle.command_line.specs.Request.{number_value, is_number, number_of, have_numbers, given_of, seen_options, is_alone, has_fitting_save, is_fitting};

use clap::ArgMatches;

/// The values of the options.
#[derive(Clone, Copy, Drop)]
pub(crate) struct Options<'a> {
    pub(crate) parallel: Option<u64>,
    pub(crate) save: Option<&'a str>,
    pub(crate) save_limit: Option<u64>,
    pub(crate) units: Option<u64>,
    pub(crate) sample: Option<u64>,
}

// The number that the text writes, where it is one from the one to the other.
fn number_in(text: &str, low: u64, high: u64) -> Option<u64>
    ensures { MatchOption result (is_unsigned_in low high text.now ≡ false) (λ n. (is_unsigned_in low high text.now ≡ true) × (n ≡ number_value text.now)) }
{
    match text.parse::<u64>() {
        Ok(number) if low <= number && number <= high => Some(number),
        _ => None,
    }
}

// The text of an option.
fn text_of<'a>(matches: &ArgMatches<'a>, id: &str) -> Option<&'a str>
    ensures { option_map (λ text. text.now) result ≡ first_of id.now (rows_of (found_of matches.now)) }
{
    matches.get_str(id)
}

// The number of an option, or nothing where its text isn't one from the one to the other.
fn number_of(matches: &ArgMatches, id: &str, low: u64, high: u64) -> Option<Option<u64>>
    ensures { MatchOption result (is_number low high id.now (rows_of (found_of matches.now)) ≡ false)
        (λ number. (is_number low high id.now (rows_of (found_of matches.now)) ≡ true) × (number ≡ number_of id.now (rows_of (found_of matches.now)))) }
{
    match text_of(matches, id) {
        None => Some(None),
        Some(text) => Some(Some(number_in(text, low, high)?)),
    }
}

/// The values of the options, or nothing where one isn't a number in its range.
pub(crate) fn options_of<'a>(matches: &ArgMatches<'a>) -> Option<Options<'a>>
    ensures { MatchOption result (have_numbers (rows_of (found_of matches.now)) ≡ false)
        (λ options. (have_numbers (rows_of (found_of matches.now)) ≡ true) × (seen_options options ≡ given_of (rows_of (found_of matches.now)))) }
{
    Some(Options {
        parallel: number_of(matches, "parallel", 1, 64)?,
        save_limit: number_of(matches, "save-limit", 64, 4294967296)?,
        units: number_of(matches, "units", 1, 1000000000)?,
        sample: number_of(matches, "sample", 2, 100)?,
        save: text_of(matches, "save"),
    })
}

impl<'a> Options<'a> {
    ghost use Rattle.std.specs.Prelude.{◌≡◌, map};
    ghost use Rattle.command_line.specs.Request.{seen_options, is_alone, has_fitting_save, is_fitting};

    // Whether there is none of the options of a save.
    fn is_alone(&self) -> bool
        ensures { result ≡ is_alone (seen_options self.now) }
    {
        self.save.is_none() && self.save_limit.is_none() && self.units.is_none()
    }

    // Whether the options of a save go with one.
    fn has_fitting_save(&self) -> bool
        ensures { result ≡ has_fitting_save (seen_options self.now) }
    {
        match self.save {
            Some(file) => !file.is_empty(),
            None => self.is_alone(),
        }
    }

    /// Whether a sample stands alone, or a job has its file.
    pub(crate) fn is_fitting(&self, texts: &[&str]) -> bool
        ensures { result ≡ is_fitting (seen_options self.now) (map (λ text. text.now) texts.now) }
    {
        if self.sample.is_some() {
            texts.is_empty() && self.is_alone()
        } else {
            !texts.is_empty() && self.has_fitting_save()
        }
    }
}
