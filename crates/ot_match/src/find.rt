ghost use Rattle.std.specs.Prelude.{◌≡◌, ◌<◌, length, IfOk, IfSome};
ghost use Rattle.std.specs.Option.{option_map};
ghost use Rattle.ot_logic.specs.Naming.{names};
ghost use Rattle.ot_kernel.specs.State.{term_at};
ghost use Rattle.ot_match.specs.Matching.{matched};
ghost use Rattle.ot_logic.specs.PlainTrees.{term_of_tree};
ghost use Rattle.ot_match.specs.Found.{maps_of, IsMatchIn};

use crate::terms::match_term;
use ot_kernel::Kernel;
use ot_logic::{Memory, Name, Tm};
use ot_term::TermId;
use ot_type::TypeId;
use ot_view::Binders;
use std::alloc::Global;

/// What stands for the variables of a pattern: a type for each type variable, and a term for each
/// free variable after the types, with the variable's name and type. Each is in the order in which the
/// pattern has them first.
#[derive(Drop)]
pub struct Match {
    pub types: Vec<(Name, TypeId)>,
    pub vars: Vec<(Name, TypeId, TermId)>,
}

/// The one match of a pattern with a term of the kernel: the types and the terms whose substitution
/// for the pattern's variables gives the term, where each term has its variable's type. None exactly
/// where there is no such match. The numbers in a match are of the kernel.
pub fn find_match(
    alloc: Global,
    kernel: &Kernel,
    pattern: &Tm,
    target: TermId,
) -> Result<Option<Match>, Memory>
    requires { target < length kernel.now.terms }
    ensures matched { IfOk result (λ found. option_map (maps_of kernel.now) found
        ≡ matched names (term_of_tree pattern.now) (term_at kernel.now target)) }
    ensures inside { IfOk result (λ found. IfSome found (IsMatchIn kernel.now)) }
{
    let mut maps = Match {
        types: Vec::new(alloc),
        vars: Vec::new(alloc),
    };
    if match_term(
        alloc,
        kernel,
        &Binders::Outermost,
        pattern,
        target,
        &mut maps,
    )? {
        Ok(Some(maps))
    } else {
        Ok(None)
    }
}
