ghost use Rattle.ot_logic.specs.Names.{Name};
ghost use Rattle.ot_machine.specs.Writable.{IsWritable};
ghost use Rattle.ot_uses.specs.Sound.{LawfulIsSound};
ghost use Rattle.ot_uses.specs.Suffices.{UsesSuffice};

/// A law: the stated machine is sound. The definitions of a lawful run are accepted over its assumptions, and each
/// theorem that rests on the run is derivable from the assumptions under the definitions. The laws of the machine have
/// that a run before its first command is lawful, and that each command keeps it so.
pub fn run_soundness_law()
    ensures named { LawfulIsSound (λ (n : Name). Unit {0}) }
    ensures written { LawfulIsSound IsWritable }
{}

/// A law: each theorem that a run exports is derivable from the assumptions that it rests on, under the definitions
/// that it rests on, and these are accepted over those assumptions alone.
pub fn uses_law()
    ensures named { UsesSuffice (λ (n : Name). Unit {0}) }
    ensures written { UsesSuffice IsWritable }
{}
