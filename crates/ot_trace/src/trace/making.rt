ghost use Rattle.std.specs.Prelude.{◌≡◌, ◌<◌, ◌++◌, ◌∷◌, [], ◌⊎◌, Some, slice_get};
ghost use Rattle.std.specs.Prelude.{slice_index_or, length, map, IfOk, OnOk, OnErr};
ghost use Rattle.std.specs.List.{All};
ghost use Rattle.ot_logic.specs.Table.{IsInjective};
ghost use Rattle.ot_trace.specs.Origins.{Make, Define, operand, symbols};

use crate::operands::Operands;
use crate::step::Step;
use crate::trace::{StepId, Trace};
use ot_logic::{Cmd, Memory};

impl Trace {
    ghost use Rattle.ot_trace.specs.Trace.{origin_at, origins_at};

    /// The number of what a word makes of these operands, from the bottom of the stack up.
    ///
    /// The operands are of this trace. After running out of memory the trace is as before.
    #[inline(always)]
    pub fn make(&mut self, word: Cmd, operands: &[StepId]) -> Result<StepId, Memory>
        requires { All (λ i. i < length self.old) operands.now }
        ensures ok { IfOk result (λ id. slice_get self.new id ≡ Some (Make word (origins_at self.old operands.now))) }
        ensures grown { OnOk result ((self.new ≡ self.old)
            ⊎ (self.new ≡ self.old ++ Make word (origins_at self.old operands.now) ∷ [])) }
        ensures err { OnErr result (self.new ≡ self.old) }
        ensures once { IsInjective self.new }
    {
        let operands = Operands::of(*self.steps.allocator(), operands)?;
        self.add(Step::Make(word, operands))
    }

    /// The number of a definition by a word and these operands, from the bottom of the stack up.
    ///
    /// The operands are of this trace, and `defined` are the steps of the symbols that they name, in
    /// order: of `const` for each constant, of `typeOp` for a type operator. After running out of memory the
    /// trace is as before.
    pub fn define(
        &mut self,
        word: Cmd,
        operands: &[StepId],
        defined: &[StepId],
    ) -> Result<StepId, Memory>
        requires operands { All (λ i. i < length self.old) operands.now }
        requires defined { All (λ i. i < length self.old) defined.now }
        requires symbols { map (origin_at self.old) defined.now ≡ symbols (Define word (origins_at self.old operands.now)) }
        ensures ok { IfOk result
            (λ id. slice_get self.new id ≡ Some (Define word (origins_at self.old operands.now))) }
        ensures grown { OnOk result ((self.new ≡ self.old)
            ⊎ (self.new ≡ self.old ++ Define word (origins_at self.old operands.now) ∷ [])) }
        ensures err { OnErr result (self.new ≡ self.old) }
        ensures once { IsInjective self.new }
    {
        let alloc = *self.steps.allocator();
        let operands = Box::new(alloc, Vec::from_slice(alloc, operands)?)?;
        let defined = Box::new(alloc, Vec::from_slice(alloc, defined)?)?;
        self.add(Step::Define(word, operands, defined))
    }

    /// The operand of a step at a place, 0 the lowest; the step itself where it has none there.
    pub fn operand(&self, id: StepId, place: usize) -> StepId
        requires { id < length self.now }
        ensures operand { origin_at self.now result ≡ operand place (origin_at self.now id) }
        ensures inside { result < length self.now }
    {
        operand_or(self.step(id).operands(), place, id)
    }
}

/// The number at a place, or another one where there is none.
fn operand_or(operands: &[StepId], place: usize, id: StepId) -> StepId
    ensures { result ≡ slice_index_or operands.now place id }
{
    if place < operands.len() {
        operands[place]
    } else {
        id
    }
}
