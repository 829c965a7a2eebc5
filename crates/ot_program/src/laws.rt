//! The law of the stated answer.
ghost use Rattle.ot_program.specs.Laws.{AnswersAreSound};

use ot_link::ends_law;
use ot_log_format::soundness_law;
use ot_uses::run_soundness_law;

/// A law: the stated answer, as `run` gives it, is sound. Where a stated task ends, the theorems of what it ends with are
/// derivable from its assumptions, under its definitions, which are accepted; so are those of a search's packages.
pub fn answer_law()
    ensures { AnswersAreSound }
{
    ends_law();
    run_soundness_law();
    soundness_law();
}
