//! Laws of the definitions: each call has an empty body, and its postcondition is a theorem.
ghost use Rattle.ot_blocks.specs.Ordering.{EndsAlways, GivesOrder, GivesCycle};
ghost use Rattle.ot_blocks.specs.Paths.{OneFullName};
ghost use Rattle.ot_blocks.specs.Structure.{PlanEnds, GivesPlan};

/// The walk over blocks never runs out of its bound; the order that it gives has each block that is
/// reached once, behind its imports; and the line that it gives is that of an import on a cycle.
pub fn order_law()
    ensures ends { EndsAlways }
    ensures order { GivesOrder }
    ensures cycle { GivesCycle }
{}

/// Of a theory file the walk never runs out of its bound; and where there is a plan, no statement has a
/// fault, and the order is that of the blocks that `main` reaches.
pub fn plan_law()
    ensures ends { PlanEnds }
    ensures plan { GivesPlan }
{}

/// A package's full name has one name and one version.
pub fn one_full_name()
    ensures { OneFullName }
{}
