//! The writer: the log so far, and where in it the theorems of steps are.
ghost use Rattle.std.specs.Prelude.{◌≡◌, ◌<◌, ◌++◌, [], ◌∷◌, ℕ, length, set, slice_get, Some, IfOk, OnOk};
ghost use Rattle.ot_machine.specs.declared.session.Session.{Session as Run};
ghost use Rattle.ot_log_law.specs.Writing.{nothing_written};
ghost use Rattle.ot_log.specs.Keeping.{Holds, IsPlaced, IsWriter, Marks, first_place, number_at};
ghost use Rattle.ot_log.specs.Ready.{HasPlace};

use ot_log_nodes::{Nodes, Typings};
use ot_log_page::Sheet;
use ot_log_rules::Statement;
use ot_log_values::Values;
use ot_log_words::Made;
use ot_logic::Memory;
use ot_machine::Session;
use ot_trace::StepId;
use std::alloc::Global;

/// Where the theorem of a step is: its number in the log, and its place among the statements.
#[derive(Clone, Copy)]
pub(crate) struct Place {
    pub(crate) number: usize,
    pub(crate) at: usize,
}

/// A log in the making, with what the steps of a trace made.
#[derive(Drop)]
pub(crate) struct Writer {
    pub(crate) sheet: Sheet,
    pub(crate) nodes: Nodes,
    pub(crate) values: Values,
    pub(crate) typings: Typings,
    pub(crate) statements: Vec<Statement>,
    // Of each step whose theorem was written.
    pub(crate) places: Vec<Option<Place>>,
}

impl Writer {
    /// The header alone, for so many steps.
    pub(crate) fn new(alloc: Global, count: usize, max: usize) -> Result<Writer, Memory>
        ensures writer { (s : Run) → length s.trace ≡ count → IfOk result (IsWriter s) }
        ensures holds { (s : Run) → length s.trace ≡ count → IfOk result (λ w. Holds s max w nothing_written) }
    {
        Ok(Writer {
            sheet: Sheet::new(alloc, max),
            nodes: Nodes::new(alloc)?,
            values: Values::new(alloc),
            typings: Typings::new(alloc),
            statements: Vec::new(alloc),
            places: vec![in alloc; None; count]?,
        })
    }

    /// The place of a theorem that was written.
    pub(crate) fn place(&self, session: &Session, id: StepId) -> Place
        requires writer { IsWriter session.now self.now }
        requires inside { id < length session.now.trace }
        requires there { HasPlace self.now.places.items id }
        ensures at { slice_get self.now.places.items id ≡ Some (Some result) }
        ensures placed { IsPlaced session.now self.now.nodes self.now.statements.items id result }
    {
        match self.places[id.index()] {
            Some(place) => place,
            None => unreachable!(),
        }
    }

    /// The number of the theorem of a step, if it was written.
    pub(crate) fn number(&self, session: &Session, id: StepId) -> Option<usize>
        requires writer { IsWriter session.now self.now }
        requires inside { id < length session.now.trace }
        ensures { result ≡ number_at self.now.places.items id }
    {
        match self.places[id.index()] {
            Some(place) => Some(place.number),
            None => None,
        }
    }

    /// The theorem of a step was written. It keeps its first place.
    pub(crate) fn mark(&mut self, id: StepId, made: Made) -> Result<(), Memory>
        requires inside { id < length self.old.places.items }
        ensures { OnOk result (Marks id made self.old self.new) }
    {
        let at = id.index();
        let next = Place {
            number: made.number,
            at: self.statements.len(),
        };
        self.places[at] = Some(first_place(self.places[at], next));
        self.statements.push(made.statement)?;
        Ok(())
    }
}

/// The place that a theorem has, which may have one already.
fn first_place(place: Option<Place>, next: Place) -> Place
    ensures { result ≡ first_place (Some place) next }
{
    match place {
        Some(first) => first,
        None => next,
    }
}
