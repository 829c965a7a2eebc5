//! Alpha classes of named terms, made from those of their parts: each call has an empty body, and its postcondition is a
//! theorem.
#![tactic(auto)]

ghost use Rattle.ot_logic.specs.Naming.{names, numbers};
ghost use Rattle.ot_shape.specs.Laws.{ClassesAreAlpha, FreesAreFree, FreesAreDistinct};

/// Two terms differ at most in the names of their binders exactly where their classes are one.
pub fn classes_law()
    ensures of_names { ClassesAreAlpha names }
    ensures of_numbers { ClassesAreAlpha numbers }
{}

/// The list of a class holds the free variables of the term, each once.
pub fn frees_law()
    ensures free_in_names { FreesAreFree names }
    ensures free_in_numbers { FreesAreFree numbers }
    ensures distinct_in_names { FreesAreDistinct names }
    ensures distinct_in_numbers { FreesAreDistinct numbers }
{}
