//! The writer of origins, with a work list of its own.
ghost use Rattle.std.specs.Prelude.{◌≡◌, ◌+◌, ◌<◌, ◌++◌, ◌∷◌, [], ℕ, List, cond};
ghost use Rattle.std.specs.Prelude.{length, map, nat_le, reverse, OnOk, IfOk, pos};
ghost use Rattle.ot_logic.specs.Names.{Name};
ghost use Rattle.ot_trace.specs.Origins as origin;
ghost use Rattle.ot_trace.specs.Origins.{Origin};
ghost use Rattle.ot_trace.specs.Trace.{IsStepTable, origin_at};
ghost use Rattle.ot_logic.specs.declared.command.Cmd.TheVariants as words;
ghost use Rattle.ot_written.specs.Written.{put, make, store, keep_made, emit, emit_definition};
ghost use Rattle.ot_written.specs.Written.{emit_exports, pops, theorem_count, symbol_count};
ghost use Rattle.ot_written.specs.Written as written;
ghost use Rattle.ot_write.specs.Bytes.{AreNamed, AreRootsInside, roots_at};
ghost use Rattle.ot_write.specs.Limited.{Bytes, limited};
ghost use Rattle.ot_write.specs.declared.writer.Task.TheVariants as task;
ghost use Rattle.ot_write.specs.Emitting.{Given, HasKeys, ArePlacesBelow, IsReady, Moves, Replaces, begin, close, cost, given};
ghost use Rattle.ot_write.specs.Emitting.{keep, used, perform, task_place, rest, same, stored_from, task_cost, total};

use crate::roots::Roots;
use crate::text::Text;
use ot_logic::{Cmd, Memory, Names};
use ot_trace::{Step, StepId, Trace};
use std::alloc::Global;

/// What is to be done: to write an origin, or to write the line behind its operands.
#[derive(Clone, Copy)]
pub(crate) enum Task {
    Write(StepId),
    Close(StepId),
}

/// An article in the making.
#[derive(Drop)]
pub(crate) struct Writer {
    pub(crate) text: Text,
    // The steps that have a key, key by key.
    pub(crate) stored: Vec<StepId>,
    // The key of each step.
    pub(crate) keys: Vec<Option<u64>>,
}

impl Writer {
    /// Before the first line, for so many steps.
    pub(crate) fn new(alloc: Global, count: usize, max: u64) -> Result<Writer, Memory>
        ensures text { IfOk result (λ x. limited x.text ≡ Bytes [] max) }
        ensures stored { IfOk result (λ x. x.stored.items ≡ []) }
        ensures keys { (ts : List (Origin ℕ)) → length ts ≡ count → IfOk result (λ x. HasKeys ts x.keys.items []) }
    {
        Ok(Writer {
            text: Text::new(alloc, max),
            stored: Vec::new(alloc),
            keys: vec![in alloc; None; count]?,
        })
    }

    /// Writes an origin that has a key.
    fn recall(&mut self, key: u64) -> Result<(), Memory>
        ensures same { (self.new.keys.items ≡ self.old.keys.items) × (self.new.stored.items ≡ self.old.stored.items) }
        ensures moves { (g : Given) → OnOk result
            (Moves g self.old self.new
            (λ t. put same (written.Order words.Ref) (put same (written.Numeral (pos key)) t))) }
    {
        self.text.put_key(key)?;
        self.text.put_word(Cmd::Ref)
    }

    /// Gives an origin the next key.
    fn store(&mut self, trace: &Trace, id: StepId) -> Result<(), Memory>
        requires trace { IsStepTable trace.now }
        requires inside { id < length trace.now }
        requires keys { HasKeys trace.now self.old.keys.items self.old.stored.items }
        ensures keys { HasKeys trace.now self.new.keys.items self.new.stored.items }
        ensures moves { (ns : List Name) (cs : List ℕ)
            → OnOk result (Moves (given ns trace.now cs) self.old self.new (store same (origin_at trace.now id))) }
    {
        let key = self.stored.len() as u64;
        self.text.put_key(key)?;
        self.text.put_word(Cmd::Def)?;
        self.stored.push(id)?;
        let at = id.index();
        if self.keys[at].is_none() {
            self.keys[at] = Some(key);
        }
        Ok(())
    }

    /// Stores an origin that has so many uses.
    fn store_from(
        &mut self,
        trace: &Trace,
        counts: &[u8],
        least: u8,
        id: StepId,
    ) -> Result<(), Memory>
        requires ready { IsReady trace.now counts.now self.old }
        requires inside { id < length trace.now }
        ensures ready { IsReady trace.now counts.now self.new }
        ensures moves { (ns : List Name) → let g = given ns trace.now counts.now in
            OnOk result (Moves g self.old self.new (stored_from g least (origin_at trace.now id))) }
    {
        let at = id.index();
        if counts[at] >= least {
            self.store(trace, id)?;
        }
        Ok(())
    }

    /// Does what the tasks say, the last one first.
    fn run(
        &mut self,
        trace: &Trace,
        names: &Names,
        counts: &[u8],
        mut work: Vec<Task>,
    ) -> Result<(), Memory>
        requires ready { IsReady trace.now counts.now self.old }
        requires named { AreNamed (length names.now) trace.now }
        requires work { ArePlacesBelow (length trace.now) work.items }
        ensures ready { IsReady trace.now counts.now self.new }
        ensures moves { let g = given names.now trace.now counts.now in
            OnOk result (Moves g self.old self.new (rest g work.items)) }
    {
        'tasks: while let Some(task) = work.pop() {
            self.perform(trace, names, counts, task, &mut work)?;
        }
        Ok(())
    }

    fn perform(
        &mut self,
        trace: &Trace,
        names: &Names,
        counts: &[u8],
        task: Task,
        work: &mut Vec<Task>,
    ) -> Result<(), Memory>
        requires ready { IsReady trace.now counts.now self.old }
        requires named { AreNamed (length names.now) trace.now }
        requires inside { task_place task < length trace.now }
        requires work { ArePlacesBelow (length trace.now) work.old.items }
        ensures ready { IsReady trace.now counts.now self.new }
        ensures work { OnOk result (ArePlacesBelow (length trace.now) work.new.items) }
        ensures moves { let g = given names.now trace.now counts.now in
            OnOk result (Replaces g self.old self.new work.old.items work.new.items (perform g task)) }
        ensures cheaper { OnOk result (total trace.now work.new.items < total trace.now work.old.items
            + task_cost trace.now task) }
    {
        match task {
            Task::Write(id) => self.open(trace, names, counts, id, work),
            Task::Close(id) => self.close(trace, counts, id),
        }
    }

    /// Writes an origin, or asks for its operands.
    fn open(
        &mut self,
        trace: &Trace,
        names: &Names,
        counts: &[u8],
        id: StepId,
        work: &mut Vec<Task>,
    ) -> Result<(), Memory>
        requires ready { IsReady trace.now counts.now self.old }
        requires named { AreNamed (length names.now) trace.now }
        requires inside { id < length trace.now }
        requires work { ArePlacesBelow (length trace.now) work.old.items }
        ensures ready { IsReady trace.now counts.now self.new }
        ensures work { OnOk result (ArePlacesBelow (length trace.now) work.new.items) }
        ensures moves { let g = given names.now trace.now counts.now in
            OnOk result (Replaces g self.old self.new work.old.items work.new.items
            (emit same (keep g) (origin_at trace.now id))) }
        ensures cheaper { OnOk result (total trace.now work.new.items < total trace.now work.old.items
            + cost (origin_at trace.now id)) }
    {
        let at = id.index();
        match self.keys[at] {
            Some(key) => self.recall(key),
            None => self.begin(trace, names, counts, id, work),
        }
    }

    /// An origin without a key: its line at once, or its operands and then its line.
    fn begin(
        &mut self,
        trace: &Trace,
        names: &Names,
        counts: &[u8],
        id: StepId,
        work: &mut Vec<Task>,
    ) -> Result<(), Memory>
        requires ready { IsReady trace.now counts.now self.old }
        requires named { AreNamed (length names.now) trace.now }
        requires inside { id < length trace.now }
        requires work { ArePlacesBelow (length trace.now) work.old.items }
        ensures ready { IsReady trace.now counts.now self.new }
        ensures work { OnOk result (ArePlacesBelow (length trace.now) work.new.items) }
        ensures moves { let g = given names.now trace.now counts.now in
            OnOk result (Replaces g self.old self.new work.old.items work.new.items
            (begin g (origin_at trace.now id))) }
        ensures cheaper { OnOk result (total trace.now work.new.items < total trace.now work.old.items
            + cost (origin_at trace.now id)) }
    {
        match trace.step(id) {
            Step::Number(k) => self.text.put_number(*k),
            Step::Name(n) => {
                self.text.put_name(names.get(*n))?;
                self.store_from(trace, counts, 2, id)
            }
            Step::Make(_, operands) => ask(id, operands.as_slice(), work),
            Step::Define(_, _, _) => Ok(()),
            Step::Outcome(_, _) => Ok(()),
        }
    }

    /// Writes the line of an origin whose operands are written, and stores what is to be stored of it.
    fn close(&mut self, trace: &Trace, counts: &[u8], id: StepId) -> Result<(), Memory>
        requires ready { IsReady trace.now counts.now self.old }
        requires inside { id < length trace.now }
        ensures ready { IsReady trace.now counts.now self.new }
        ensures moves { (ns : List Name) → let g = given ns trace.now counts.now in
            OnOk result (Moves g self.old self.new (close g (origin_at trace.now id))) }
    {
        match trace.step(id) {
            Step::Make(word, _) => {
                self.text.put_word(*word)?;
                self.store_from(trace, counts, 2, id)
            }
            Step::Define(word, _, _) => {
                self.text.put_word(*word)?;
                self.store_theorems(trace, counts, theorems(*word), id)?;
                self.pops(symbols(*word))
            }
            Step::Number(_) => Ok(()),
            Step::Name(_) => Ok(()),
            Step::Outcome(_, _) => Ok(()),
        }
    }

    /// Pops the theorems of a definition, from the last to the first, and stores those that have a use.
    fn store_theorems(
        &mut self,
        trace: &Trace,
        counts: &[u8],
        count: u8,
        id: StepId,
    ) -> Result<(), Memory>
        requires ready { IsReady trace.now counts.now self.old }
        requires inside { id < length trace.now }
        ensures ready { IsReady trace.now counts.now self.new }
        ensures moves { (ns : List Name) → let g = given ns trace.now counts.now in
            OnOk result (Moves g self.old self.new
            (written.outcomes same (keep g) (used g) (origin_at trace.now id) count)) }
    {
        let mut left = count;
        while left > 0 {
            self.store_theorem(trace, counts, left, id)?;
            left -= 1;
        }
        Ok(())
    }

    /// Stores the theorem at a place of a definition where it has a use, and pops it.
    fn store_theorem(
        &mut self,
        trace: &Trace,
        counts: &[u8],
        place: u8,
        id: StepId,
    ) -> Result<(), Memory>
        requires ready { IsReady trace.now counts.now self.old }
        requires inside { id < length trace.now }
        ensures ready { IsReady trace.now counts.now self.new }
        ensures moves { (ns : List Name) → let g = given ns trace.now counts.now in
            OnOk result (Moves g self.old self.new
            (λ t. put same (written.Order words.Pop)
            (stored_from g 1 (origin.Outcome place (origin_at trace.now id)) t))) }
    {
        self.store_used(trace, counts, place, id)?;
        self.text.put_word(Cmd::Pop)
    }

    /// Stores the theorem at a place of a definition where it has a use.
    fn store_used(
        &mut self,
        trace: &Trace,
        counts: &[u8],
        place: u8,
        id: StepId,
    ) -> Result<(), Memory>
        requires ready { IsReady trace.now counts.now self.old }
        requires inside { id < length trace.now }
        ensures ready { IsReady trace.now counts.now self.new }
        ensures moves { (ns : List Name) → let g = given ns trace.now counts.now in
            OnOk result (Moves g self.old self.new
            (stored_from g 1 (origin.Outcome place (origin_at trace.now id)))) }
    {
        let outcome = Step::Outcome(place, id);
        match trace.find(&outcome) {
            Some(theorem) => self.store_from(trace, counts, 1, theorem),
            None => Ok(()),
        }
    }

    /// So many entries are popped.
    fn pops(&mut self, count: u8) -> Result<(), Memory>
        ensures same { (self.new.keys.items ≡ self.old.keys.items) × (self.new.stored.items ≡ self.old.stored.items) }
        ensures moves { (g : Given) → OnOk result (Moves g self.old self.new (pops same (keep g) (used g) count)) }
    {
        let mut left = count;
        while left > 0 {
            self.text.put_word(Cmd::Pop)?;
            left -= 1;
        }
        Ok(())
    }

    /// Writes a definition.
    pub(crate) fn define(
        &mut self,
        alloc: Global,
        trace: &Trace,
        names: &Names,
        counts: &[u8],
        id: StepId,
    ) -> Result<(), Memory>
        requires ready { IsReady trace.now counts.now self.old }
        requires named { AreNamed (length names.now) trace.now }
        requires inside { id < length trace.now }
        ensures ready { IsReady trace.now counts.now self.new }
        ensures moves { let g = given names.now trace.now counts.now in
            OnOk result (Moves g self.old self.new
            (emit_definition same (keep g) (used g) (origin_at trace.now id))) }
    {
        match trace.step(id) {
            Step::Define(_, operands, _) => {
                let mut work = Vec::new(alloc);
                ask(id, operands.as_slice(), &mut work)?;
                self.run(trace, names, counts, work)
            }
            Step::Number(_) => Ok(()),
            Step::Name(_) => Ok(()),
            Step::Make(_, _) => Ok(()),
            Step::Outcome(_, _) => Ok(()),
        }
    }

    /// Writes an export.
    pub(crate) fn export(
        &mut self,
        alloc: Global,
        trace: &Trace,
        names: &Names,
        counts: &[u8],
        export: Roots,
    ) -> Result<(), Memory>
        requires ready { IsReady trace.now counts.now self.old }
        requires named { AreNamed (length names.now) trace.now }
        requires inside { AreRootsInside (length trace.now) export }
        ensures ready { IsReady trace.now counts.now self.new }
        ensures moves { let g = given names.now trace.now counts.now in
            OnOk result (Moves g self.old self.new
            (emit_exports same (keep g) (used g) (roots_at trace.now export ∷ []))) }
    {
        let mut work = Vec::new(alloc);
        work.push(Task::Write(export.term))?;
        work.push(Task::Write(export.list))?;
        work.push(Task::Write(export.theorem))?;
        self.run(trace, names, counts, work)?;
        self.text.put_word(Cmd::Thm)
    }
}

/// Asks for the operands, from the first on, and then for the line of the step.
fn ask(id: StepId, operands: &[StepId], work: &mut Vec<Task>) -> Result<(), Memory>
    ensures { OnOk result (work.new.items ≡ (work.old.items ++ task.Close id ∷ [])
        ++ reverse (map task.Write operands.now)) }
{
    work.push(Task::Close(id))?;
    let mut left = operands.len();
    while left > 0 {
        left -= 1;
        work.push(Task::Write(operands[left]))?;
    }
    Ok(())
}

/// How many theorems a definition by the word pushes.
fn theorems(word: Cmd) -> u8
    ensures { result ≡ theorem_count word }
{
    match word {
        Cmd::DefineTypeOp => 2,
        _ => 1,
    }
}

/// How many entries with symbols a definition by the word pushes.
fn symbols(word: Cmd) -> u8
    ensures { result ≡ symbol_count word }
{
    match word {
        Cmd::DefineTypeOp => 3,
        _ => 1,
    }
}
