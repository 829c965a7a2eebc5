//! Laws of the definitions: each call has an empty body, and its postcondition is a theorem.
ghost use Rattle.ot_repo.specs.Laws.{GivesRequired, GivesRefusal, RequiredEnds};

/// The packages that are required are each once, behind those that their own files require, and in
/// the order of the tags; without tags there are none. Each refusal has its cause, with its path and
/// line. The walk never runs out of its bound.
pub fn required_law()
    ensures gives { GivesRequired }
    ensures refuses { GivesRefusal }
    ensures ends { RequiredEnds }
{}
