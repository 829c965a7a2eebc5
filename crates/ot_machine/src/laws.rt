ghost use Rattle.ot_logic.specs.Names.{Name};
ghost use Rattle.ot_machine.specs.Writable.{IsWritable};
ghost use Rattle.ot_machine.specs.LawfulLaws.{CanBeNamed, FreshIsLawful, StepIsLawful, LinesAreLawful};
ghost use Rattle.ot_machine.specs.LawfulLaws.{RunIsLawful, LawfulStays, ResultsAreTheorems, AxiomGivesItsSequent};

/// A run is lawful before its first article, and an article of a lawful run before its first command.
pub fn fresh_law()
    ensures named { FreshIsLawful (λ (n : Name). Unit {0}) }
    ensures written { FreshIsLawful IsWritable }
{}

/// A command that is taken keeps a state lawful: each object is the value of its origin, and the
/// axioms and the definitions among the parts of origins are those of the run. What is lawful over
/// the run stays so. If the names in origins can be said by lines before, they can after.
pub fn step_law()
    ensures named { StepIsLawful (λ (n : Name). Unit {0}) }
    ensures written { StepIsLawful IsWritable }
{}

/// So do the lines of an article, whatever they say.
pub fn lines_law()
    ensures named { LinesAreLawful (λ (n : Name). Unit {0}) }
    ensures written { LinesAreLawful IsWritable }
    ensures said { CanBeNamed IsWritable }
{}

/// So does the run of an article, up to its end or its first fault.
pub fn run_law()
    ensures named { RunIsLawful (λ (n : Name). Unit {0}) }
    ensures written { RunIsLawful IsWritable }
{}

/// Theorems and exports that are lawful over a run are lawful over a larger one.
pub fn stays_law()
    ensures named { LawfulStays (λ (n : Name). Unit {0}) }
    ensures written { LawfulStays IsWritable }
{}

/// The theorems of each definition of a lawful run are the values of its `result` origins.
pub fn results_law()
    ensures { ResultsAreTheorems (λ (n : Name). Unit {0}) }
{}

/// What `axiom` pushes is the sequent that it states, up to the order of hypotheses, and a theorem of
/// the context is refused for the nesting limit alone.
pub fn axiom_law()
    ensures { AxiomGivesItsSequent }
{}
