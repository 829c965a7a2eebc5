//! The proof log of a run: its bytes, and what their check ends with.
#![tactic(auto)]

ghost use Rattle.ot_log_law.specs.Checked.{RunLogLaw};

/// The check of the log of a lawful run's exports ends: with the exports as results in their
/// order, with the definitions that they need in their old order, and with the assumptions that
/// they need, each once.
pub fn run_log_law()
    ensures { RunLogLaw }
{}
