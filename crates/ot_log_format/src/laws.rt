//! What the check of a log implies, for names and for their numbers.
ghost use Rattle.ot_logic.specs.Naming.{names, numbers};
ghost use Rattle.ot_log_format.specs.Sound.{LogsAreSound};

/// Where the check of a log ends, its definitions are accepted and each result is derivable from
/// its assumptions under them. The body is empty; the postcondition is the theorem.
pub fn soundness_law()
    ensures of_names { LogsAreSound names }
    ensures of_numbers { LogsAreSound numbers }
{}
