//! Definitions behind their premises, and results behind their theorems.
ghost use Rattle.std.specs.Prelude.{◌≡◌, ◌≢◌, ◌<◌, [], ◌∷◌, ℕ, length, IfOk, IfSome, IfNone, OnOk};
ghost use Rattle.std.specs.List.{All};
ghost use Rattle.ot_logic.specs.declared.command.Cmd.TheVariants as words;
ghost use Rattle.ot_trace.specs.Origins.{Define, Outcome};
ghost use Rattle.ot_log_rules.specs.Statements.{sequent_at, HasStatement};
ghost use Rattle.ot_machine.specs.Objects as object;
ghost use Rattle.ot_machine.specs.Meaning.{origin_of};
ghost use Rattle.ot_machine.specs.Values.{definition_arity};
ghost use Rattle.ot_log_law.specs.Writing.{add_outcomes, put_result, write, write_definition};
ghost use Rattle.ot_log_values.specs.Steps.{Makes, origins_of};
ghost use Rattle.ot_log_words.specs.Recording.{IsNotRefused};
ghost use Rattle.ot_log.specs.Keeping.{AreTheorems, IsDefinable, IsNumbered, IsWriter, Moves, PutsDefinition};
ghost use Rattle.ot_log.specs.Ready.{HasOutcomes, HasPremises, HavePlaces, IsProof, Knows};

use crate::writer::Writer;
use ot_log_format::RecordWord;
use ot_log_page::Operand;
use ot_log_rules::{Statement, StepFault};
use ot_log_values::{name, names};
use ot_log_words::{Made, write_constant, write_constants, write_type_operator};
use ot_logic::{Cmd, Memory};
use ot_machine::Session;
use ot_trace::{Step, StepId};
use std::alloc::Global;

impl Writer {
    fn put_constant(
        &mut self,
        session: &Session,
        n: StepId,
        t: StepId,
    ) -> Result<Vec<Statement>, StepFault>
        requires session { IsNumbered session.now }
        requires writer { IsWriter session.now self.old }
        requires n { n < length session.now.trace }
        requires t { t < length session.now.trace }
        requires definable { IsDefinable (Define words.DefineConst (origins_of session.now (n ∷ t ∷ []))) }
        ensures puts { IfOk result (λ v.
            PutsDefinition session.now self.old self.new words.DefineConst (n ∷ t ∷ []) v.items) }
        ensures accepts { IsNotRefused result }
    {
        let constant = name(&mut self.nodes, session, n)?;
        let term = self.values.term(&mut self.nodes, session, t)?;
        write_constant(
            &mut self.sheet,
            &mut self.nodes,
            &mut self.typings,
            constant,
            term,
        )
    }

    fn put_constants(
        &mut self,
        session: &Session,
        list: StepId,
        a: StepId,
    ) -> Result<Vec<Statement>, StepFault>
        requires session { IsNumbered session.now }
        requires writer { IsWriter session.now self.old }
        requires list { list < length session.now.trace }
        requires a { a < length session.now.trace }
        requires definable { IsDefinable (Define words.DefineConstList (origins_of session.now (list ∷ a ∷ []))) }
        requires there { HavePlaces session.now self.old.places.items (list ∷ a ∷ []) }
        ensures puts { IfOk result (λ v.
            PutsDefinition session.now self.old self.new words.DefineConstList (list ∷ a ∷ []) v.items) }
        ensures accepts { IsNotRefused result }
    {
        let p = self.place(session, a);
        let pairs = self.values.pairs(&mut self.nodes, session, list)?;
        write_constants(
            &mut self.sheet,
            &mut self.nodes,
            &pairs,
            &self.statements[p.at],
            p.number,
        )
    }

    fn put_type_operator(
        &mut self,
        session: &Session,
        n: StepId,
        abs: StepId,
        rep: StepId,
        list: StepId,
        a: StepId,
    ) -> Result<Vec<Statement>, StepFault>
        requires session { IsNumbered session.now }
        requires writer { IsWriter session.now self.old }
        requires n { n < length session.now.trace }
        requires abs { abs < length session.now.trace }
        requires rep { rep < length session.now.trace }
        requires list { list < length session.now.trace }
        requires a { a < length session.now.trace }
        requires definable { IsDefinable
            (Define words.DefineTypeOp (origins_of session.now (n ∷ abs ∷ rep ∷ list ∷ a ∷ []))) }
        requires there { HavePlaces session.now self.old.places.items (n ∷ abs ∷ rep ∷ list ∷ a ∷ []) }
        ensures puts { IfOk result (λ v.
            PutsDefinition session.now self.old self.new words.DefineTypeOp (n ∷ abs ∷ rep ∷ list ∷ a ∷ []) v.items) }
        ensures accepts { IsNotRefused result }
    {
        let p = self.place(session, a);
        let operator = name(&mut self.nodes, session, n)?;
        let to = name(&mut self.nodes, session, abs)?;
        let from = name(&mut self.nodes, session, rep)?;
        let vars = names(&mut self.nodes, session, list)?;
        write_type_operator(
            &mut self.sheet,
            &mut self.nodes,
            &mut self.typings,
            operator,
            to,
            from,
            &vars,
            &self.statements[p.at],
            p.number,
        )
    }

    /// The record of a definition, and its theorems.
    fn put_definition(
        &mut self,
        session: &Session,
        word: Cmd,
        operands: &[StepId],
    ) -> Result<Vec<Statement>, StepFault>
        requires session { IsNumbered session.now }
        requires writer { IsWriter session.now self.old }
        requires operands { All (λ i. i < length session.now.trace) operands.now }
        requires count { length operands.now ≡ definition_arity word }
        requires definable { IsDefinable (Define word (origins_of session.now operands.now)) }
        requires there { HavePlaces session.now self.old.places.items operands.now }
        ensures puts { IfOk result (λ v.
            PutsDefinition session.now self.old self.new word operands.now v.items) }
        ensures accepts { IsNotRefused result }
    {
        match word {
            Cmd::DefineConst => match operands {
                [n, t] => self.put_constant(session, *n, *t),
                _ => unreachable!(),
            },
            Cmd::DefineConstList => match operands {
                [list, a] => self.put_constants(session, *list, *a),
                _ => unreachable!(),
            },
            Cmd::DefineTypeOp => match operands {
                [n, abs, rep, list, a] => {
                    self.put_type_operator(session, *n, *abs, *rep, *list, *a)
                }
                _ => unreachable!(),
            },
            _ => unreachable!(),
        }
    }

    /// A definition, behind its premise.
    pub(crate) fn define(
        &mut self,
        alloc: Global,
        session: &Session,
        id: StepId,
    ) -> Result<(), Memory>
        requires session { IsNumbered session.now }
        requires writer { IsWriter session.now self.old }
        requires inside { id < length session.now.trace }
        requires definable { IsDefinable (origin_of session.now id) }
        requires ready { Knows session.now self.old (λ x. HasPremises x (origin_of session.now id)) }
        ensures writer { OnOk result (IsWriter session.now self.new) }
        ensures moves { OnOk result (Moves session.now self.old self.new (write_definition (origin_of session.now id))) }
    {
        match session.trace().step(id) {
            Step::Define(word, operands, _) => {
                self.theorems(alloc, session, operands.as_slice())?;
                let made = match self.put_definition(session, *word, operands.as_slice()) {
                    Ok(made) => made,
                    Err(StepFault::Memory(memory)) => return Err(memory),
                    Err(StepFault::BadStep) => unreachable!(),
                };
                match word {
                    Cmd::DefineConst => self.mark_one(session, id, made),
                    Cmd::DefineConstList => self.mark_one(session, id, made),
                    Cmd::DefineTypeOp => self.mark_two(session, id, made),
                    _ => unreachable!(),
                }
            }
            _ => unreachable!(),
        }
    }

    /// The theorem of a definition gets the next number.
    fn mark_one(
        &mut self,
        session: &Session,
        id: StepId,
        mut theorems: Vec<Statement>,
    ) -> Result<(), Memory>
        requires session { IsNumbered session.now }
        requires writer { IsWriter session.now self.old }
        requires inside { id < length session.now.trace }
        requires has { All (HasStatement self.old.nodes) theorems.items }
        requires theorems { AreTheorems self.old.nodes (origin_of session.now id) theorems.items }
        requires count { length theorems.items ≡ 1 }
        ensures writer { OnOk result (IsWriter session.now self.new) }
        ensures moves { OnOk result (Moves session.now self.old self.new
            (add_outcomes (Outcome 1 (origin_of session.now id) ∷ []))) }
    {
        match theorems.pop() {
            Some(theorem) => self.mark_outcome(session, 1, id, theorem),
            None => unreachable!(),
        }
    }

    /// The two theorems of a definition get the next numbers.
    fn mark_two(
        &mut self,
        session: &Session,
        id: StepId,
        mut theorems: Vec<Statement>,
    ) -> Result<(), Memory>
        requires session { IsNumbered session.now }
        requires writer { IsWriter session.now self.old }
        requires inside { id < length session.now.trace }
        requires has { All (HasStatement self.old.nodes) theorems.items }
        requires theorems { AreTheorems self.old.nodes (origin_of session.now id) theorems.items }
        requires count { length theorems.items ≡ 2 }
        ensures writer { OnOk result (IsWriter session.now self.new) }
        ensures moves { OnOk result (Moves session.now self.old self.new
            (add_outcomes (Outcome 1 (origin_of session.now id) ∷ Outcome 2 (origin_of session.now id) ∷ []))) }
    {
        let Some(second) = theorems.pop() else {
            unreachable!();
        };
        let Some(first) = theorems.pop() else {
            unreachable!();
        };
        self.mark_outcome(session, 1, id, first)?;
        self.mark_outcome(session, 2, id, second)
    }

    /// The theorem at a place of a definition gets the next number.
    fn mark_outcome(
        &mut self,
        session: &Session,
        place: u8,
        id: StepId,
        theorem: Statement,
    ) -> Result<(), Memory>
        requires session { IsNumbered session.now }
        requires writer { IsWriter session.now self.old }
        requires inside { id < length session.now.trace }
        requires has { HasStatement self.old.nodes theorem }
        requires makes { Makes (Outcome place (origin_of session.now id))
            (object.theorem (sequent_at self.old.nodes theorem)) }
        ensures writer { OnOk result (IsWriter session.now self.new) }
        ensures nodes { OnOk result (self.new.nodes ≡ self.old.nodes) }
        ensures moves { OnOk result (Moves session.now self.old self.new
            (add_outcomes (Outcome place (origin_of session.now id) ∷ []))) }
    {
        let number = self.sheet.sequents();
        self.sheet.count_sequent()?;
        let made = Made {
            statement: theorem,
            number,
        };
        match outcome_step(session, place, id) {
            Some(step) => self.mark(step, made),
            None => Ok(()),
        }
    }

    /// A result, behind its theorem.
    pub(crate) fn result(
        &mut self,
        alloc: Global,
        session: &Session,
        id: StepId,
    ) -> Result<(), Memory>
        requires session { IsNumbered session.now }
        requires writer { IsWriter session.now self.old }
        requires inside { id < length session.now.trace }
        requires proof { IsProof (origin_of session.now id) }
        requires ready { Knows session.now self.old (λ x. HasOutcomes x (origin_of session.now id)) }
        ensures writer { OnOk result (IsWriter session.now self.new) }
        ensures moves { OnOk result (Moves session.now self.old self.new
            (λ x. put_result (origin_of session.now id) (write (origin_of session.now id) x))) }
    {
        self.theorem(alloc, session, id)?;
        let p = self.place(session, id);
        let operands = [Operand::Sequent(p.number)];
        self.sheet.write(&self.nodes, RecordWord::Result, &operands)
    }
}

/// The step of the theorem at a place of a definition, if there is one.
fn outcome_step(session: &Session, place: u8, id: StepId) -> Option<StepId>
    requires session { IsNumbered session.now }
    requires inside { id < length session.now.trace }
    ensures some { IfSome result (λ i. (i < length session.now.trace)
        × (origin_of session.now i ≡ Outcome place (origin_of session.now id))) }
    ensures none { IfNone result ((i : ℕ) → i < length session.now.trace
        → origin_of session.now i ≢ Outcome place (origin_of session.now id)) }
{
    let outcome = Step::Outcome(place, id);
    session.trace().find(&outcome)
}
