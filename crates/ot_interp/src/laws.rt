ghost use Rattle.ot_logic.specs.Naming.{names, numbers};
ghost use Rattle.ot_interp.specs.Interpretation.{InnerThenOuter};

/// A law: an interpretation after another gives each name what the outer one gives to its name in the inner one.
pub fn after_law()
    ensures of_names { InnerThenOuter names }
    ensures of_numbers { InnerThenOuter numbers }
{}
