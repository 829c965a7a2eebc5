//! The law of lawful runs.
ghost use Rattle.ot_link.specs.Laws.{EndsAreLawful};

/// A law: where the stated run of an article ends, or that of a theory file with all that it asks for, the run is
/// lawful, and so is each export over it.
pub fn ends_law()
    ensures { EndsAreLawful }
{}
