//! What the definitions of the logic imply, for names and for their numbers: each call has an empty body, and its postcondition is a theorem.
#![tactic(auto)]

ghost use Rattle.std.specs.Prelude.{ℕ, List};
ghost use Rattle.ot_logic.specs.Naming.{names, numbers};
ghost use Rattle.ot_logic.specs.Trees.{Sequent, Definition};
ghost use Rattle.ot_logic.specs.Names.{Name};
ghost use Rattle.ot_laws.specs.Next.{ConstantsAreNext, ListsAreNext, TypesAreNext};
ghost use Rattle.ot_laws.specs.Laws.{NamelessForm, NamelessFree, NamelessTyping, NamelessLimit};
ghost use Rattle.ot_laws.specs.Laws.{NamedSubstitution, BindersCanBePicked, BetaIsSubstitution};
ghost use Rattle.ot_laws.specs.Laws.{SubstitutionTyping, TestsDecide, HypothesesAreSets, SizeCountsParts};
ghost use Rattle.ot_laws.specs.Laws.{Growth, DerivableAreSequents, TermRulesAreSound, RulesAreSound};

/// The two ways to the nameless form of a term agree, and the same variables are free in it.
pub fn nameless_law()
    ensures form_of_names { NamelessForm names }
    ensures form_of_numbers { NamelessForm numbers }
    ensures free_in_names { NamelessFree names }
    ensures free_in_numbers { NamelessFree numbers }
{}

/// A named term has the type of its nameless form, and is well typed exactly where that is.
pub fn nameless_typing_law()
    ensures of_names { NamelessTyping names }
    ensures of_numbers { NamelessTyping numbers }
{}

/// A named term is within the nesting limit exactly where its nameless form is.
pub fn shallow_law()
    ensures of_names { NamelessLimit names }
    ensures of_numbers { NamelessLimit numbers }
{}

/// Substitution is the one that renames binders on named terms, whatever new binders are picked, and some can be.
pub fn substitution_law()
    ensures of_names { NamedSubstitution names }
    ensures of_numbers { NamedSubstitution numbers }
    ensures picked_names { BindersCanBePicked names }
    ensures picked_numbers { BindersCanBePicked numbers }
{}

/// Beta is the substitution of the argument for the variable.
pub fn beta_law()
    ensures of_names { BetaIsSubstitution names }
    ensures of_numbers { BetaIsSubstitution numbers }
{}

/// Substitution keeps terms well typed.
pub fn substitution_typing_law()
    ensures of_names { SubstitutionTyping names }
    ensures of_numbers { SubstitutionTyping numbers }
{}

/// The tests of types, terms and sequents hold exactly where what they ask for does.
pub fn tests_law()
    ensures of_names { TestsDecide names }
    ensures of_numbers { TestsDecide numbers }
{}

/// The lists of hypotheses that rules make are the sets that they stand for, each member once.
pub fn hypotheses_law()
    ensures of_names { HypothesesAreSets names }
    ensures of_numbers { HypothesesAreSets numbers }
{}

/// The size of a term is the number of different trees among its parts.
pub fn size_law()
    ensures of_names { SizeCountsParts names }
    ensures of_numbers { SizeCountsParts numbers }
{}

/// What is derivable and accepted stays so when assumptions and definitions are added at the ends.
pub fn growth_law()
    ensures of_names { Growth names }
    ensures of_numbers { Growth numbers }
{}

/// Under accepted definitions, and assumptions that are sequents, all that is derivable is a sequent.
pub fn derivable_typing_law()
    ensures of_names { DerivableAreSequents names }
    ensures of_numbers { DerivableAreSequents numbers }
{}

/// The types and terms that rules make are within the nesting limit, and the terms well typed.
pub fn term_rules_law()
    ensures of_names { TermRulesAreSound names }
    ensures of_numbers { TermRulesAreSound numbers }
{}

/// The sequent that a rule gives is a theorem where those that it is given are: derivable, of propositions alone, and with
/// no hypothesis twice. So are those of the three derived rules.
pub fn rules_are_sound_law()
    ensures of_names { (al : List (Sequent Name)) (dl : List (Definition Name)) → RulesAreSound names al dl }
    ensures of_numbers { (al : List (Sequent ℕ)) (dl : List (Definition ℕ)) → RulesAreSound numbers al dl }
{}

/// A constant that passes its conditions may be defined next.
pub fn constants_law()
    ensures of_names { ConstantsAreNext names }
    ensures of_numbers { ConstantsAreNext numbers }
{}

/// A list of constants that passes its conditions may be defined next, from a theorem.
pub fn lists_law()
    ensures of_names { ListsAreNext names }
    ensures of_numbers { ListsAreNext numbers }
{}

/// A type that passes its conditions may be defined next, from a theorem.
pub fn types_law()
    ensures of_names { TypesAreNext names }
    ensures of_numbers { TypesAreNext numbers }
{}
