ghost use Rattle.std.specs.Prelude.{◌≡◌, IfSome};
ghost use Rattle.ot_trace.specs.StepHash.{step_writes, step_writes-alike};
ghost use Rattle.ot_trace.specs.Greatest.{greatest_part, greatest_part-alike};

use crate::operands::{Operands, hash_operands};
use crate::trace::StepId;
use ot_logic::{Cmd, NameId};
use ot_near::Refers;
use std::hash::{Hash, Hasher};

/// How an object was made, with the parts by number.
/// A trace has many steps: one holds inside what most of them need, and the lists of a definition, of which an article
/// has few, stand apart.
#[derive(PartialEq, Eq, Drop)]
pub enum Step {
    /// A number.
    Number(i64),
    /// A name.
    Name(NameId),
    /// What a word makes of its operands, from the bottom of the stack up.
    Make(Cmd, Operands),
    /// A definition by a word and its operands; the steps of its symbols stand last.
    Define(Cmd, Box<Vec<StepId>>, Box<Vec<StepId>>),
    /// The theorem of a definition, by its place from 1 on.
    Outcome(u8, StepId),
}

impl Step {
    ghost use Rattle.ot_trace.specs.Trace.{operand_numbers};

    /// The operands, from the bottom of the stack up.
    pub fn operands(&self) -> &[StepId]
        ensures { result.now ≡ operand_numbers self.now }
    {
        match self {
            Step::Make(_, operands) => operands.as_slice(),
            Step::Define(_, operands, _) => operands.as_slice(),
            Step::Number(_) => &[],
            Step::Name(_) => &[],
            Step::Outcome(_, _) => &[],
        }
    }

    /// A copy of a step that owns no list.
    pub(crate) fn copied(&self) -> Option<Step>
        ensures { IfSome result (λ step. step ≡ self.now) }
    {
        match self {
            Step::Number(number) => Some(Step::Number(*number)),
            Step::Name(name) => Some(Step::Name(*name)),
            Step::Make(word, operands) => match operands.copied() {
                Some(operands) => Some(Step::Make(*word, operands)),
                None => None,
            },
            Step::Define(_, _, _) => None,
            Step::Outcome(place, definition) => Some(Step::Outcome(*place, *definition)),
        }
    }
}

// The table looks for a step near its greatest operand, which is mostly a young one.
impl Refers for Step {
    ghost greatest = { greatest_part };

    ghost greatest_alike = { greatest_part-alike };

    fn greatest(&self) -> Option<u32> {
        match self {
            Step::Make(_, operands) => operands.greatest(),
            Step::Outcome(_, definition) => Some(definition.0),
            Step::Number(_) => None,
            Step::Name(_) => None,
            Step::Define(_, _, _) => None,
        }
    }
}

// One or two operands, as most words have, are one write: a trace hashes a step at each call. Few words take the same
// operands, so their word isn't hashed; a definition's symbols come with its operands.
impl Hash for Step {
    ghost hash_input = { step_writes };

    ghost respects_eq = { step_writes-alike };

    fn hash<H: Hasher>(&self, state: &mut H) {
        match self {
            Step::Number(number) => {
                state.write_u8(0);
                number.hash(state);
            }
            Step::Name(name) => {
                state.write_u8(1);
                name.hash(state);
            }
            Step::Make(_, operands) => operands.hash(state),
            Step::Define(word, operands, _) => {
                state.write_u8(2);
                word.hash(state);
                hash_operands(operands.as_slice(), state);
            }
            Step::Outcome(place, definition) => {
                state.write_u8(3);
                state.write_u8(*place);
                definition.hash(state);
            }
        }
    }
}
