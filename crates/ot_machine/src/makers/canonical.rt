//! The canonical origins of types and of terms: those that an article of version 5 derives its theorems with.
ghost use Rattle.std.specs.Prelude.{◌≡◌, ◌<◌, ◌+◌, ◌^◌, ◌∷◌, [], length, IfOk, IfSome, IfNone, OnOk};
ghost use Rattle.std.specs.Fmt.{decimal};
ghost use Rattle.std.specs.List.{All};
ghost use Rattle.ot_logic.specs.NamedTerms.{IsFreeIn};
ghost use Rattle.ot_logic.specs.Names.{Name as NameValue};
ghost use Rattle.ot_logic.specs.Naming.{names};
ghost use Rattle.ot_logic.specs.Trees.{Variable};
ghost use Rattle.ot_logic.specs.declared.command.Cmd.TheVariants as words;
ghost use Rattle.ot_kernel.specs.State.{name_at, type_at, types_at, variable_at, named_at};
ghost use Rattle.ot_trace.specs.Origins.{Named, make_two, constant_origin};
ghost use Rattle.ot_view.specs.Nodes.{IsKey};
ghost use Rattle.ot_machine.specs.Occurrences.{AreOccurrences};
ghost use Rattle.ot_machine.specs.Version5.{canon_ty, canon_tys, var_origin};
ghost use Rattle.ot_machine.specs.Canonical.{variable_in, canon_in, binders_at, IsBinderIn, AreTypes, AreKnown};
ghost use Rattle.ot_machine.specs.Meaning.{origin_of, IsRun, Traces};
ghost use Rattle.ot_machine.specs.Stays.{Stays, MakesStep};

use crate::makers::occurrences::{Occurrence, is_free};
use crate::session::Session;
use indexmap::IndexMap;
use ot_logic::{Cmd, Memory, Name, NameId};
use ot_term::{TermId, TermNode, VarKey};
use ot_trace::StepId;
use ot_type::{TypeId, TypeNode};
use ot_view::{same_variable, term_node, type_node};
use std::alloc::Global;

/// A binder around a part of a term, with the step of the variable that stands for it.
#[derive(Clone, Copy, PartialEq, Eq, Hash)]
pub(crate) struct Binder {
    pub variable: VarKey,
    pub step: StepId,
}

/// A part of a term under so many abstractions, with those of the binders around it whose variables are free in it.
#[derive(PartialEq, Eq, Hash, Drop)]
pub(crate) struct Part {
    pub id: TermId,
    pub depth: usize,
    pub binders: Vec<Binder>,
}

/// The steps that were found: what is shared is worked on once.
#[derive(Drop)]
pub(crate) struct Known {
    pub types: IndexMap<TypeId, StepId>,
    pub terms: IndexMap<Part, StepId>,
    // Which variables are free in which terms.
    pub free: IndexMap<Occurrence, bool>,
}

impl Known {
    /// Nothing yet.
    pub(crate) fn new(alloc: Global) -> Known
        ensures types { result.types.entries ≡ [] }
        ensures terms { result.terms.entries ≡ [] }
        ensures free { result.free.entries ≡ [] }
    {
        Known {
            types: IndexMap::new(alloc),
            terms: IndexMap::new(alloc),
            free: IndexMap::new(alloc),
        }
    }
}

impl Session {
    /// The step of a type.
    #[cycle(type_origin)]
    pub(crate) fn type_origin(
        &mut self,
        alloc: Global,
        id: TypeId,
        known: &mut IndexMap<TypeId, StepId>,
    ) -> Result<StepId, Memory>
        requires run { IsRun self.old }
        requires id { id < length self.old.kernel.types }
        requires known { AreTypes self.old known.old.entries }
        ensures made { IfOk result (λ i. origin_of self.new i ≡ canon_ty (type_at self.old.kernel id)) }
        ensures inside { IfOk result (λ i. i < length self.new.trace) }
        ensures kept { Traces self.old self.new }
        ensures known { OnOk result (AreTypes self.new known.new.entries) }
    {
        if let Some(step) = known.get(&id) {
            return Ok(*step);
        }
        let step = self.type_node_origin(alloc, id, known)?;
        known.insert(id, step)?;
        Ok(step)
    }

    /// The same, node by node.
    #[cycle(type_origin)]
    fn type_node_origin(
        &mut self,
        alloc: Global,
        id: TypeId,
        known: &mut IndexMap<TypeId, StepId>,
    ) -> Result<StepId, Memory>
        requires run { IsRun self.old }
        requires id { id < length self.old.kernel.types }
        requires known { AreTypes self.old known.old.entries }
        ensures made { IfOk result (λ i. origin_of self.new i ≡ canon_ty (type_at self.old.kernel id)) }
        ensures inside { IfOk result (λ i. i < length self.new.trace) }
        ensures kept { Traces self.old self.new }
        ensures known { OnOk result (AreTypes self.new known.new.entries) }
    {
        match type_node(&self.kernel, id) {
            TypeNode::Var(name) => {
                let name = *name;
                let (_, step) = self.symbol_steps(Cmd::VarType, name)?;
                Ok(step)
            }
            TypeNode::Op(name, args) => {
                let name = *name;
                let args = Vec::from_slice(alloc, args.as_slice())?;
                let (_, op) = self.symbol_steps(Cmd::TypeOp, name)?;
                let list = self.types_origin(alloc, &args, id, known)?;
                Ok(self.made_of(Cmd::OpType, &[op, list])?)
            }
        }
    }

    /// The step of the list of types that are below a bound.
    #[cycle(type_origin)]
    fn types_origin(
        &mut self,
        alloc: Global,
        ids: &[TypeId],
        bound: TypeId,
        known: &mut IndexMap<TypeId, StepId>,
    ) -> Result<StepId, Memory>
        requires run { IsRun self.old }
        requires bound { bound < length self.old.kernel.types }
        requires below { All (λ i. i < bound) ids.now }
        requires known { AreTypes self.old known.old.entries }
        ensures made { IfOk result (λ i. origin_of self.new i ≡ canon_tys (types_at self.old.kernel ids.now)) }
        ensures inside { IfOk result (λ i. i < length self.new.trace) }
        ensures kept { Traces self.old self.new }
        ensures known { OnOk result (AreTypes self.new known.new.entries) }
    {
        let mut list = self.made_of(Cmd::Nil, &[])?;
        let mut rest = ids;
        'types: while let Some((id, front)) = rest.split_last() {
            let head = self.type_origin(alloc, *id, known)?;
            list = self.made_of(Cmd::Cons, &[head, list])?;
            rest = front;
        }
        Ok(list)
    }

    /// The step of the variable of a name at the type of a step.
    pub(crate) fn variable_step(&mut self, name: NameId, ty: StepId) -> Result<StepId, Memory>
        requires run { IsRun self.old }
        requires name { name < length self.old.kernel.names }
        requires ty { ty < length self.old.trace }
        ensures { MakesStep result
            (make_two words.Var (Named (name_at self.old.kernel name)) (origin_of self.old ty))
            self.old self.new }
    {
        let spelled = self.name_step(name)?;
        Ok(self.made_of(Cmd::Var, &[spelled, ty])?)
    }

    /// The step of the constant of a name at the type of a step.
    pub(crate) fn constant_step(&mut self, name: NameId, ty: StepId) -> Result<StepId, Memory>
        requires run { IsRun self.old }
        requires name { name < length self.old.kernel.names }
        requires ty { ty < length self.old.trace }
        ensures { MakesStep result
            (make_two words.ConstTerm (constant_origin (Named (name_at self.old.kernel name))) (origin_of self.old ty))
            self.old self.new }
    {
        let (_, constant) = self.symbol_steps(Cmd::Const, name)?;
        Ok(self.made_of(Cmd::ConstTerm, &[constant, ty])?)
    }

    /// The number of the name that a number spells.
    fn numeral(&mut self, alloc: Global, number: usize) -> Result<NameId, Memory>
        requires run { IsRun self.old }
        ensures made { IfOk result (λ n. name_at self.new.kernel n ≡ decimal number ∷ []) }
        ensures inside { IfOk result (λ n. n < length self.new.kernel.names) }
        ensures kept { Stays self.old self.new }
    {
        let text = format!(in alloc; "{number}")?;
        let name = Name::of_text(alloc, text.as_bytes())?;
        Ok(self.kernel.intern(name)?)
    }

    /// The step of the variable that stands for a binder under so many abstractions, at the type of a step.
    fn binder_step(&mut self, alloc: Global, depth: usize, ty: StepId) -> Result<StepId, Memory>
        requires run { IsRun self.old }
        requires ty { ty < length self.old.trace }
        ensures made { IfOk result
            (λ i. origin_of self.new i ≡ make_two words.Var (Named (decimal depth ∷ [])) (origin_of self.old ty)) }
        ensures inside { IfOk result (λ i. i < length self.new.trace) }
        ensures kept { Stays self.old self.new }
    {
        let name = self.numeral(alloc, depth)?;
        Ok(self.variable_step(name, ty)?)
    }

    /// The step of the variable that stands for the innermost binder of a variable.
    fn binder_of(&self, binders: &[Binder], v: &VarKey) -> Option<StepId>
        requires key { IsKey self.now.kernel v.now }
        requires binders { All (IsBinderIn self.now) binders.now }
        ensures some { IfSome result (λ i. origin_of self.now i ≡ variable_in (binders_at self.now binders.now)
            (variable_at self.now.kernel v.now)) }
        ensures none { IfNone result
            (var_origin (name_at self.now.kernel v.now.name) (type_at self.now.kernel v.now.ty)
            ≡ variable_in (binders_at self.now binders.now) (variable_at self.now.kernel v.now)) }
        ensures inside { IfSome result (λ i. i < length self.now.trace) }
    {
        let mut rest = binders;
        'binders: while let Some((binder, others)) = rest.split_first() {
            if same_variable(&self.kernel, v, &binder.variable) {
                return Some(binder.step);
            }
            rest = others;
        }
        None
    }

    /// The step of a variable under binders.
    fn variable_origin(
        &mut self,
        alloc: Global,
        binders: &[Binder],
        v: VarKey,
        known: &mut Known,
    ) -> Result<StepId, Memory>
        requires run { IsRun self.old }
        requires key { IsKey self.old.kernel v }
        requires binders { All (IsBinderIn self.old) binders.now }
        requires known { AreKnown self.old known.old }
        ensures made { IfOk result (λ i. origin_of self.new i ≡ variable_in (binders_at self.old binders.now)
            (variable_at self.old.kernel v)) }
        ensures inside { IfOk result (λ i. i < length self.new.trace) }
        ensures kept { Traces self.old self.new }
        ensures known { OnOk result (AreKnown self.new known.new) }
    {
        match self.binder_of(binders, &v) {
            Some(step) => Ok(step),
            None => {
                let ty = self.type_origin(alloc, v.ty, &mut known.types)?;
                Ok(self.variable_step(v.name, ty)?)
            }
        }
    }

    /// The binders whose variables are free in a term.
    fn binders_within(
        &self,
        alloc: Global,
        binders: &[Binder],
        id: TermId,
        known: &mut IndexMap<Occurrence, bool>,
    ) -> Result<Vec<Binder>, Memory>
        requires id { id < length self.now.kernel.terms }
        requires binders { All (IsBinderIn self.now) binders.now }
        requires known { AreOccurrences self.now.kernel known.old.entries }
        ensures inside { IfOk result (λ bs. All (IsBinderIn self.now) bs.items) }
        ensures same { IfOk result
            (λ bs. (v : Variable NameValue) → IsFreeIn names v (named_at self.now.kernel.terms id)
            → variable_in (binders_at self.now bs.items) v ≡ variable_in (binders_at self.now binders.now) v) }
        ensures known { OnOk result (AreOccurrences self.now.kernel known.new.entries) }
    {
        let mut kept = Vec::new(alloc);
        let mut rest = binders;
        'binders: while let Some((binder, others)) = rest.split_first() {
            let free = is_free(&self.kernel, &binder.variable, id, known)?;
            if free {
                kept.push(*binder)?;
            }
            rest = others;
        }
        Ok(kept)
    }

    /// The step of a term under so many abstractions, whose binders are these, the innermost first.
    #[cycle(term_origin)]
    pub(crate) fn term_origin(
        &mut self,
        alloc: Global,
        depth: usize,
        binders: &[Binder],
        id: TermId,
        known: &mut Known,
    ) -> Result<StepId, Memory>
        requires run { IsRun self.old }
        requires id { id < length self.old.kernel.terms }
        requires room { depth + id < 2 ^ 64 }
        requires binders { All (IsBinderIn self.old) binders.now }
        requires known { AreKnown self.old known.old }
        ensures made { IfOk result (λ i. origin_of self.new i ≡ canon_in depth (binders_at self.old binders.now)
            (named_at self.old.kernel.terms id)) }
        ensures inside { IfOk result (λ i. i < length self.new.trace) }
        ensures kept { Stays self.old self.new }
        ensures known { OnOk result (AreKnown self.new known.new) }
    {
        let binders = self.binders_within(alloc, binders, id, &mut known.free)?;
        let part = Part { id, depth, binders };
        if let Some(step) = known.terms.get(&part) {
            return Ok(*step);
        }
        let step = self.node_origin(alloc, depth, &part.binders, id, known)?;
        known.terms.insert(part, step)?;
        Ok(step)
    }

    /// The same, node by node.
    #[cycle(term_origin)]
    fn node_origin(
        &mut self,
        alloc: Global,
        depth: usize,
        binders: &[Binder],
        id: TermId,
        known: &mut Known,
    ) -> Result<StepId, Memory>
        requires run { IsRun self.old }
        requires id { id < length self.old.kernel.terms }
        requires room { depth + id < 2 ^ 64 }
        requires binders { All (IsBinderIn self.old) binders.now }
        requires known { AreKnown self.old known.old }
        ensures made { IfOk result (λ i. origin_of self.new i ≡ canon_in depth (binders_at self.old binders.now)
            (named_at self.old.kernel.terms id)) }
        ensures inside { IfOk result (λ i. i < length self.new.trace) }
        ensures kept { Stays self.old self.new }
        ensures known { OnOk result (AreKnown self.new known.new) }
    {
        match *term_node(&self.kernel, id) {
            TermNode::Var(v) => {
                let variable = self.variable_origin(alloc, binders, v, known)?;
                Ok(self.made_of(Cmd::VarTerm, &[variable])?)
            }
            TermNode::Const(name, ty) => {
                let ty = self.type_origin(alloc, ty, &mut known.types)?;
                Ok(self.constant_step(name, ty)?)
            }
            TermNode::App(f, x) => {
                let f = self.term_origin(alloc, depth, binders, f, known)?;
                let x = self.term_origin(alloc, depth, binders, x, known)?;
                Ok(self.made_of(Cmd::AppTerm, &[f, x])?)
            }
            TermNode::Abs(v, body) => {
                let ty = self.type_origin(alloc, v.ty, &mut known.types)?;
                let step = self.binder_step(alloc, depth, ty)?;
                let inner = inside(alloc, Binder { variable: v, step }, binders)?;
                let body = self.term_origin(alloc, depth + 1, &inner, body, known)?;
                Ok(self.made_of(Cmd::AbsTerm, &[step, body])?)
            }
        }
    }
}

/// Binders with one more inside them.
fn inside(alloc: Global, binder: Binder, around: &[Binder]) -> Result<Vec<Binder>, Memory>
    ensures { IfOk result (λ bs. bs.items ≡ binder ∷ around.now) }
{
    let mut binders = Vec::new(alloc);
    binders.push(binder)?;
    binders.extend_from_slice(around)?;
    Ok(binders)
}
