ghost use Rattle.ot_theory.specs.Interpretations.{OneInterpretation};
ghost use Rattle.ot_theory.specs.Places.{InPlace};
ghost use Rattle.ot_theory.specs.Values.{TellsPaths};

/// A law: each key, value and name of a block that a theory has is a part of the text, in the line
/// that has its number; those of the tags stand in the text in their order, and so do those of the
/// blocks.
pub fn places()
    ensures { InPlace }
{}

/// A law: a value is split exactly where it is `const` or `type`, a quoted name, `as` and a quoted
/// name, with blanks between, and in one way.
pub fn one_interpretation()
    ensures { OneInterpretation }
{}

/// A law: the test of an `article:` value tells which texts are a quote, one byte or more of UTF-8
/// without a quote, and a quote.
pub fn one_path()
    ensures { TellsPaths }
{}
