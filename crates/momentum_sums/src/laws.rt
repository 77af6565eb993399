//! Laws of the readings of momenta.

ghost use Rattle.momentum_sums.specs.Printed.{PrintedReadsBack};
ghost use Rattle.momentum_sums.specs.Laws.{ReadsAsOneMomentum, HasOneMomentumFault, MomentumHasNoFault};

/// A text has at most one reading as a momentum, or at most one first fault, and never both. It does
/// nothing when it runs.
pub fn momentum_readings_are_unique()
    ensures momentum { ReadsAsOneMomentum }
    ensures momentum_fault { HasOneMomentumFault }
    ensures momentum_or_fault { MomentumHasNoFault }
{}

/// A momentum over distinct names, of which there is at least one, reads back as itself from the text
/// that `printed` gives, as `+2*k1-1*k2`. It does nothing when it runs.
pub fn printed_momentum_reads_back()
    ensures { PrintedReadsBack }
{}
