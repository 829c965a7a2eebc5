//! The records of the theorem of a step, whose operands are written.
ghost use Rattle.std.specs.Prelude.{◌≡◌, ◌<◌, [], ◌∷◌, length, true, IfOk, OnOk};
ghost use Rattle.std.specs.List.{All};
ghost use Rattle.ot_trace.specs.Origins.{Make};
ghost use Rattle.ot_logic.specs.declared.command.Cmd.TheVariants as words;
ghost use Rattle.ot_machine.specs.Meaning.{origin_of};
ghost use Rattle.ot_machine.specs.Values.{value};
ghost use Rattle.ot_log_values.specs.Steps.{origins_of};
ghost use Rattle.ot_log_words.specs.Recording.{HasResult, IsNotRefused};
ghost use Rattle.ot_log.specs.Keeping.{IsNumbered, IsWriter, Puts, Moves};
ghost use Rattle.ot_log_law.specs.Derived.{makes_theorem};
ghost use Rattle.ot_log.specs.Ready.{HasOperands, HavePlaces, Knows};
ghost use Rattle.ot_log.specs.Working.{MakesTheorem, TakesTerm, TakesTheorems, close};

use crate::writer::Writer;
use ot_log_rules::StepFault;
use ot_log_words::{
    Made, write_abs_thm, write_axiom, write_of_one_term, write_of_theorems, write_subst,
    write_symmetric,
};
use ot_logic::{Cmd, Memory};
use ot_machine::Session;
use ot_trace::{Step, StepId};
use std::alloc::Global;

impl Writer {
    /// By a word that takes a term.
    fn put_term(&mut self, session: &Session, word: Cmd, a: StepId) -> Result<Made, StepFault>
        requires session { IsNumbered session.now }
        requires writer { IsWriter session.now self.old }
        requires a { a < length session.now.trace }
        requires value { HasResult (value (Make word (origins_of session.now (a ∷ [])))) }
        requires takes { TakesTerm word }
        ensures puts { IfOk result (Puts session.now self.old self.new word (a ∷ [])) }
        ensures accepts { IsNotRefused result }
    {
        let t = self.values.term(&mut self.nodes, session, a)?;
        write_of_one_term(&mut self.sheet, &mut self.nodes, &mut self.typings, word, t)
    }

    fn put_sym(&mut self, session: &Session, a: StepId) -> Result<Made, StepFault>
        requires session { IsNumbered session.now }
        requires writer { IsWriter session.now self.old }
        requires a { a < length session.now.trace }
        requires value { HasResult (value (Make words.Sym (origins_of session.now (a ∷ [])))) }
        requires there { HavePlaces session.now self.old.places.items (a ∷ []) }
        ensures puts { IfOk result (Puts session.now self.old self.new words.Sym (a ∷ [])) }
        ensures accepts { IsNotRefused result }
    {
        let p = self.place(session, a);
        write_symmetric(
            &mut self.sheet,
            &mut self.nodes,
            &self.statements[p.at],
            p.number,
        )
    }

    /// By a word that takes two theorems.
    fn put_theorems(
        &mut self,
        session: &Session,
        word: Cmd,
        a: StepId,
        b: StepId,
    ) -> Result<Made, StepFault>
        requires session { IsNumbered session.now }
        requires writer { IsWriter session.now self.old }
        requires a { a < length session.now.trace }
        requires b { b < length session.now.trace }
        requires value { HasResult (value (Make word (origins_of session.now (a ∷ b ∷ [])))) }
        requires there { HavePlaces session.now self.old.places.items (a ∷ b ∷ []) }
        requires takes { TakesTheorems word }
        ensures puts { IfOk result (Puts session.now self.old self.new word (a ∷ b ∷ [])) }
        ensures accepts { IsNotRefused result }
    {
        let p = self.place(session, a);
        let q = self.place(session, b);
        write_of_theorems(
            &mut self.sheet,
            &mut self.nodes,
            word,
            &self.statements[p.at],
            p.number,
            &self.statements[q.at],
            q.number,
        )
    }

    fn put_abs_thm(&mut self, session: &Session, v: StepId, a: StepId) -> Result<Made, StepFault>
        requires session { IsNumbered session.now }
        requires writer { IsWriter session.now self.old }
        requires v { v < length session.now.trace }
        requires a { a < length session.now.trace }
        requires value { HasResult (value (Make words.AbsThm (origins_of session.now (v ∷ a ∷ [])))) }
        requires there { HavePlaces session.now self.old.places.items (v ∷ a ∷ []) }
        ensures puts { IfOk result (Puts session.now self.old self.new words.AbsThm (v ∷ a ∷ [])) }
        ensures accepts { IsNotRefused result }
    {
        let p = self.place(session, a);
        let variable = self.values.variable(&mut self.nodes, session, v)?;
        write_abs_thm(
            &mut self.sheet,
            &mut self.nodes,
            variable,
            &self.statements[p.at],
            p.number,
        )
    }

    fn put_axiom(
        &mut self,
        alloc: Global,
        session: &Session,
        list: StepId,
        p: StepId,
    ) -> Result<Made, StepFault>
        requires session { IsNumbered session.now }
        requires writer { IsWriter session.now self.old }
        requires list { list < length session.now.trace }
        requires p { p < length session.now.trace }
        requires value { HasResult (value (Make words.Axiom (origins_of session.now (list ∷ p ∷ [])))) }
        ensures puts { IfOk result (Puts session.now self.old self.new words.Axiom (list ∷ p ∷ [])) }
        ensures accepts { IsNotRefused result }
    {
        let hyps = self.values.terms(&mut self.nodes, session, list)?;
        let concl = self.values.term(&mut self.nodes, session, p)?;
        write_axiom(
            alloc,
            &mut self.sheet,
            &mut self.nodes,
            &mut self.typings,
            &hyps,
            concl,
        )
    }

    fn put_subst(
        &mut self,
        alloc: Global,
        session: &Session,
        list: StepId,
        a: StepId,
    ) -> Result<Made, StepFault>
        requires session { IsNumbered session.now }
        requires writer { IsWriter session.now self.old }
        requires list { list < length session.now.trace }
        requires a { a < length session.now.trace }
        requires value { HasResult (value (Make words.Subst (origins_of session.now (list ∷ a ∷ [])))) }
        requires there { HavePlaces session.now self.old.places.items (list ∷ a ∷ []) }
        ensures puts { IfOk result (Puts session.now self.old self.new words.Subst (list ∷ a ∷ [])) }
        ensures accepts { IsNotRefused result }
    {
        let p = self.place(session, a);
        let (types, terms) = self.values.maps(&mut self.nodes, session, list)?;
        write_subst(
            alloc,
            &mut self.sheet,
            &mut self.nodes,
            &mut self.typings,
            &types,
            &terms,
            &self.statements[p.at],
            p.number,
        )
    }

    /// Of one operand.
    fn put_one(&mut self, session: &Session, word: Cmd, a: StepId) -> Result<Made, StepFault>
        requires session { IsNumbered session.now }
        requires writer { IsWriter session.now self.old }
        requires a { a < length session.now.trace }
        requires value { HasResult (value (Make word (origins_of session.now (a ∷ [])))) }
        requires there { HavePlaces session.now self.old.places.items (a ∷ []) }
        requires makes { makes_theorem word ≡ true }
        ensures puts { IfOk result (Puts session.now self.old self.new word (a ∷ [])) }
        ensures accepts { IsNotRefused result }
    {
        match word {
            Cmd::Sym => self.put_sym(session, a),
            _ => self.put_term(session, word, a),
        }
    }

    /// Of two operands, the lower one first.
    fn put_two(
        &mut self,
        alloc: Global,
        session: &Session,
        word: Cmd,
        a: StepId,
        b: StepId,
    ) -> Result<Made, StepFault>
        requires session { IsNumbered session.now }
        requires writer { IsWriter session.now self.old }
        requires a { a < length session.now.trace }
        requires b { b < length session.now.trace }
        requires value { HasResult (value (Make word (origins_of session.now (a ∷ b ∷ [])))) }
        requires there { HavePlaces session.now self.old.places.items (a ∷ b ∷ []) }
        requires makes { makes_theorem word ≡ true }
        ensures puts { IfOk result (Puts session.now self.old self.new word (a ∷ b ∷ [])) }
        ensures accepts { IsNotRefused result }
    {
        match word {
            Cmd::Axiom => self.put_axiom(alloc, session, a, b),
            Cmd::AbsThm => self.put_abs_thm(session, a, b),
            Cmd::Subst => self.put_subst(alloc, session, a, b),
            _ => self.put_theorems(session, word, a, b),
        }
    }

    /// The records of a word.
    fn put(
        &mut self,
        alloc: Global,
        session: &Session,
        word: Cmd,
        operands: &[StepId],
    ) -> Result<Made, StepFault>
        requires session { IsNumbered session.now }
        requires writer { IsWriter session.now self.old }
        requires operands { All (λ i. i < length session.now.trace) operands.now }
        requires some { 0 < length operands.now }
        requires few { length operands.now < 3 }
        requires value { HasResult (value (Make word (origins_of session.now operands.now))) }
        requires there { HavePlaces session.now self.old.places.items operands.now }
        requires makes { makes_theorem word ≡ true }
        ensures puts { IfOk result (Puts session.now self.old self.new word operands.now) }
        ensures accepts { IsNotRefused result }
    {
        match operands {
            [a] => self.put_one(session, word, *a),
            [a, b] => self.put_two(alloc, session, word, *a, *b),
            _ => unreachable!(),
        }
    }

    /// The records of the theorem of a step whose operands are written.
    pub(crate) fn close(
        &mut self,
        alloc: Global,
        session: &Session,
        id: StepId,
    ) -> Result<(), Memory>
        requires session { IsNumbered session.now }
        requires writer { IsWriter session.now self.old }
        requires inside { id < length session.now.trace }
        requires makes { MakesTheorem (origin_of session.now id) }
        requires value { HasResult (value (origin_of session.now id)) }
        requires ready { Knows session.now self.old (λ x. HasOperands x (origin_of session.now id)) }
        ensures writer { OnOk result (IsWriter session.now self.new) }
        ensures moves { OnOk result (Moves session.now self.old self.new (close (origin_of session.now id))) }
    {
        match session.trace().step(id) {
            Step::Make(word, operands) => {
                let made = match self.put(alloc, session, *word, operands.as_slice()) {
                    Ok(made) => made,
                    Err(StepFault::Memory(memory)) => return Err(memory),
                    Err(StepFault::BadStep) => unreachable!(),
                };
                self.mark(id, made)
            }
            _ => unreachable!(),
        }
    }
}
