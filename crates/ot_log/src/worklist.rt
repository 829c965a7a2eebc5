//! Theorems behind the theorems that they are made of, with a work list.
ghost use Rattle.std.specs.Prelude.{◌≡◌, ◌<◌, ◌+◌, ◌++◌, [], ◌∷◌, length, map, reverse, None, OnOk, IfSome, IfNone};
ghost use Rattle.std.specs.List.{All};
ghost use Rattle.ot_machine.specs.Meaning.{origin_of};
ghost use Rattle.ot_machine.specs.Values.{value, values};
ghost use Rattle.ot_log_law.specs.Derived.{makes_theorem};
ghost use Rattle.ot_log_law.specs.Writing.{Written, write, write_all};
ghost use Rattle.ot_log_values.specs.Steps.{origins_of};
ghost use Rattle.ot_log_words.specs.Recording.{HasResult};
ghost use Rattle.ot_log.specs.Keeping.{IsNumbered, IsWriter, Moves, number_at};
ghost use Rattle.ot_log.specs.Ready.{HasOutcomes, HaveOutcomes, Knows};
ghost use Rattle.ot_log.specs.Working.{AreTasks, CanDo, CanDoAll, IsTask, IsTheoremStep, Replaces, rest};
ghost use Rattle.ot_log.specs.Working.{task_cost, total};
ghost use Rattle.ot_log.specs.declared.worklist.Task.TheVariants as task;

use crate::writer::Writer;
use ot_logic::{Cmd, Memory};
use ot_machine::Session;
use ot_trace::{Step, StepId};
use std::alloc::Global;

/// What is to be done: to write the theorem of a step, or the records behind its operands.
#[derive(Clone, Copy)]
pub(crate) enum Task {
    Write(StepId),
    Close(StepId),
}

impl Writer {
    /// The theorem of a step, behind the theorems that it is made of.
    pub(crate) fn theorem(
        &mut self,
        alloc: Global,
        session: &Session,
        id: StepId,
    ) -> Result<(), Memory>
        requires session { IsNumbered session.now }
        requires writer { IsWriter session.now self.old }
        requires inside { id < length session.now.trace }
        requires value { HasResult (value (origin_of session.now id)) }
        requires ready { Knows session.now self.old (λ x. HasOutcomes x (origin_of session.now id)) }
        ensures writer { OnOk result (IsWriter session.now self.new) }
        ensures moves { OnOk result (Moves session.now self.old self.new (write (origin_of session.now id))) }
    {
        let mut work = Vec::new(alloc);
        work.push(Task::Write(id))?;
        self.run(alloc, session, work)
    }

    /// The theorems among steps, from the first on.
    pub(crate) fn theorems(
        &mut self,
        alloc: Global,
        session: &Session,
        ids: &[StepId],
    ) -> Result<(), Memory>
        requires session { IsNumbered session.now }
        requires writer { IsWriter session.now self.old }
        requires inside { All (λ i. i < length session.now.trace) ids.now }
        requires values { HasResult (values (origins_of session.now ids.now)) }
        requires ready { Knows session.now self.old (λ x. HaveOutcomes x (origins_of session.now ids.now)) }
        ensures writer { OnOk result (IsWriter session.now self.new) }
        ensures moves { OnOk result (Moves session.now self.old self.new (write_all (origins_of session.now ids.now))) }
    {
        let mut work = Vec::new(alloc);
        push_back(ids, &mut work)?;
        self.run(alloc, session, work)
    }

    /// Does what the tasks say, the last one first.
    fn run(&mut self, alloc: Global, session: &Session, mut work: Vec<Task>) -> Result<(), Memory>
        requires session { IsNumbered session.now }
        requires writer { IsWriter session.now self.old }
        requires work { AreTasks session.now work.items }
        requires ready { Knows session.now self.old (CanDoAll session.now work.items) }
        ensures writer { OnOk result (IsWriter session.now self.new) }
        ensures moves { OnOk result (Moves session.now self.old self.new (rest session.now work.items)) }
    {
        'tasks: while let Some(task) = work.pop() {
            self.perform(alloc, session, task, &mut work)?;
        }
        Ok(())
    }

    fn perform(
        &mut self,
        alloc: Global,
        session: &Session,
        task: Task,
        work: &mut Vec<Task>,
    ) -> Result<(), Memory>
        requires session { IsNumbered session.now }
        requires writer { IsWriter session.now self.old }
        requires task { IsTask session.now task }
        requires ready { Knows session.now self.old (CanDo session.now task) }
        requires work { AreTasks session.now work.old.items }
        ensures writer { OnOk result (IsWriter session.now self.new) }
        ensures work { OnOk result (AreTasks session.now work.new.items) }
        ensures moves { OnOk result (Replaces session.now self.old self.new work.old.items work.new.items task) }
        ensures cheaper { OnOk result (total session.now work.new.items
            < total session.now work.old.items + task_cost session.now task) }
    {
        match task {
            Task::Write(id) => self.ask(session, id, work),
            Task::Close(id) => self.close(alloc, session, id),
        }
    }

    /// Asks for a theorem, unless it is there.
    fn ask(&self, session: &Session, id: StepId, work: &mut Vec<Task>) -> Result<(), Memory>
        requires session { IsNumbered session.now }
        requires writer { IsWriter session.now self.now }
        requires task { IsTask session.now (task.Write id) }
        requires work { AreTasks session.now work.old.items }
        ensures work { OnOk result (AreTasks session.now work.new.items) }
        ensures moves { OnOk result (Replaces session.now self.now self.now work.old.items work.new.items
            (task.Write id)) }
        ensures cheaper { OnOk result (total session.now work.new.items
            < total session.now work.old.items + task_cost session.now (task.Write id)) }
    {
        match self.number(session, id) {
            Some(_) => Ok(()),
            None => self.ask_new(session, id, work),
        }
    }

    /// Asks for the operands of a theorem that isn't there, and then for its records.
    fn ask_new(&self, session: &Session, id: StepId, work: &mut Vec<Task>) -> Result<(), Memory>
        requires session { IsNumbered session.now }
        requires first { number_at self.now.places.items id ≡ None }
        requires task { IsTask session.now (task.Write id) }
        requires work { AreTasks session.now work.old.items }
        ensures work { OnOk result (AreTasks session.now work.new.items) }
        ensures moves { OnOk result (Replaces session.now self.now self.now work.old.items work.new.items
            (task.Write id)) }
        ensures cheaper { OnOk result (total session.now work.new.items
            < total session.now work.old.items + task_cost session.now (task.Write id)) }
    {
        match theorem_step(session, id) {
            Some(operands) => {
                work.push(Task::Close(id))?;
                push_back(operands, work)
            }
            None => Ok(()),
        }
    }
}

/// The operands of a step, if its word makes a theorem.
fn theorem_step(session: &Session, id: StepId) -> Option<&[StepId]>
    requires { id < length session.now.trace }
    ensures some { IfSome result (λ ops. IsTheoremStep session.now id ops.now) }
    ensures none { IfNone result ((x : Written) → x ≡ write (origin_of session.now id) x) }
{
    match session.trace().step(id) {
        Step::Make(word, operands) => {
            if makes_theorem(*word) {
                Some(operands.as_slice())
            } else {
                None
            }
        }
        Step::Number(_) => None,
        Step::Name(_) => None,
        Step::Define(_, _, _) => None,
        Step::Outcome(_, _) => None,
    }
}

/// Asks for theorems, so that the first comes first.
fn push_back(steps: &[StepId], work: &mut Vec<Task>) -> Result<(), Memory>
    ensures { OnOk result (work.new.items ≡ work.old.items ++ reverse (map task.Write steps.now)) }
{
    let mut left = steps.len();
    while left > 0 {
        left -= 1;
        work.push(Task::Write(steps[left]))?;
    }
    Ok(())
}

/// Whether the word makes a theorem.
fn makes_theorem(word: Cmd) -> bool
    ensures { result ≡ makes_theorem word }
{
    match word {
        Cmd::Refl => true,
        Cmd::Assume => true,
        Cmd::EqMp => true,
        Cmd::AbsThm => true,
        Cmd::AppThm => true,
        Cmd::DeductAntisym => true,
        Cmd::BetaConv => true,
        Cmd::Subst => true,
        Cmd::Sym => true,
        Cmd::Trans => true,
        Cmd::ProveHyp => true,
        Cmd::Axiom => true,
        _ => false,
    }
}
