ghost use Rattle.std.specs.Prelude.{◌≡◌, ◌+◌, ◌*◌, IfOk, IfSome, fold};
ghost use Rattle.std.proofs.Common.{rules};
ghost use Rattle.std.specs.Cmp.Rules.{comparing};
ghost use Rattle.ot_trace.specs.OperandHash.{same_operands, greatest_operand, operand_writes, operand_writes-alike};

use crate::trace::StepId;
use ot_logic::Memory;
use std::alloc::Global;
use std::hash::{Hash, Hasher};
use std::marker::Model;
use std::slice::from_ref;

/// How operands are kept: nearly all words have two at most, for which nothing is allocated.
#[derive(Drop)]
enum Kept {
    None,
    One(StepId),
    Two([StepId; 2]),
    Many(Box<Vec<StepId>>),
}

/// The operands of a word, from the bottom of the stack up, in little room: a trace keeps each step for good.
#[derive(Drop)]
pub struct Operands {
    kept: Kept,
}

impl Model for Operands {
    ghost use Rattle.std.specs.Prelude.{ℕ, List};
    ghost use Rattle.ot_trace.specs.Kept.{kept_operands};

    ghost Value = { List ℕ };

    ghost view = { λ o. kept_operands o.kept };
}

impl Operands {
    /// Those of a list, in its order.
    #[inline(always)]
    pub(crate) fn of(alloc: Global, operands: &[StepId]) -> Result<Operands, Memory>
        ensures items { IfOk result (λ o. o ≡ operands.now) }
    {
        let kept = match operands {
            [] => Kept::None,
            [one] => Kept::One(*one),
            [lower, upper] => Kept::Two([*lower, *upper]),
            _ => Kept::Many(Box::new(alloc, Vec::from_slice(alloc, operands)?)?),
        };
        Ok(Operands { kept })
    }

    /// The numbers, from the bottom of the stack up.
    pub fn as_slice(&self) -> &[StepId]
        ensures { result.now ≡ self.now }
    {
        match &self.kept {
            Kept::None => &[],
            Kept::One(one) => from_ref(one),
            Kept::Two(pair) => pair,
            Kept::Many(list) => list.as_slice(),
        }
    }

    /// The greatest of one or two.
    pub(crate) fn greatest(&self) -> Option<u32>
        ensures { result ≡ greatest_operand self.now }
    {
        match self.as_slice() {
            [one] => Some(one.0),
            [lower, upper] => Some(lower.0.max(upper.0)),
            _ => None,
        }
    }

    /// A copy of operands that own no list.
    pub(crate) fn copied(&self) -> Option<Operands>
        ensures { IfSome result (λ operands. operands ≡ self.now) }
    {
        let kept = match &self.kept {
            Kept::None => Kept::None,
            Kept::One(one) => Kept::One(*one),
            Kept::Two(pair) => Kept::Two(*pair),
            Kept::Many(_) => return None,
        };
        Some(Operands { kept })
    }
}

impl PartialEq for Operands {
    ghost eq = { same_operands };

    ghost laws = { Prim.search (comparing, rules) };

    fn eq(&self, other: &Operands) -> bool {
        match (&self.kept, &other.kept) {
            (Kept::One(one), Kept::One(other)) => one == other,
            (Kept::Two([a, b]), Kept::Two([c, d])) => a == c && b == d,
            _ => self.as_slice() == other.as_slice(),
        }
    }
}

impl Eq for Operands {
    ghost laws = { Prim.search (comparing, rules) };
}

// One operand or two are one write: a trace hashes a step at each call.
impl Hash for Operands {
    ghost hash_input = { operand_writes };

    ghost respects_eq = { operand_writes-alike };

    fn hash<H: Hasher>(&self, state: &mut H) {
        match &self.kept {
            Kept::One(one) => one.hash(state),
            Kept::Two([lower, upper]) => state.write_u64(both(*lower, *upper)),
            _ => hash_operands(self.as_slice(), state),
        }
    }
}

/// The operands of a word or of a definition.
pub(crate) fn hash_operands<H: Hasher>(operands: &[StepId], state: &mut H)
    ensures { state.new ≡ fold H.write state.old (operand_writes operands.now) }
{
    match operands {
        [one] => one.hash(state),
        [lower, upper] => state.write_u64(both(*lower, *upper)),
        _ => operands.hash(state),
    }
}

/// Two operands as one number.
#[inline(always)]
fn both(lower: StepId, upper: StepId) -> u64
    ensures { result ≡ lower + upper * 4294967296 }
{
    lower.0 as u64 + upper.0 as u64 * (1 << 32)
}
