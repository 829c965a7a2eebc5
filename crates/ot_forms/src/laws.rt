ghost use Rattle.ot_forms.specs.Laws.{RunsHaveNotations, WordsDiffer, VariableWordsDiffer, ReadsBack};
ghost use Rattle.ot_forms.specs.Laws.{OneReading, OneTermReading, OneRefusal, OneTermRefusal};
ghost use Rattle.ot_forms.specs.Laws.{NotBoth, NotBothTerm, FirstCounts, FirstOfLineCounts};

/// Laws of words: what a run hides is a notation; two symbols of one kind have different words, and so have two
/// variables.
pub fn words_differ()
    ensures notations { RunsHaveNotations }
    ensures symbols { WordsDiffer }
    ensures variables { VariableWordsDiffer }
{}

/// A law: a sequent's readable text stands for the same set of hypotheses and the same conclusion.
pub fn reads_back()
    ensures { ReadsBack }
{}

/// Laws of reading: a line stands for one sequent and a text for one term, and then isn't refused; it is refused at
/// one place for one fault; and of the refusals of what is of the forms, that of the part that ends first counts.
pub fn one_reading()
    ensures line { OneReading }
    ensures term { OneTermReading }
    ensures line_not_both { NotBoth }
    ensures term_not_both { NotBothTerm }
    ensures line_refusal { OneRefusal }
    ensures term_refusal { OneTermRefusal }
    ensures first { FirstCounts }
    ensures first_of_line { FirstOfLineCounts }
{}
