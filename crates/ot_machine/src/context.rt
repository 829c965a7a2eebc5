//! What an article is run in.
ghost use Rattle.std.specs.Prelude.{◌≡◌, ◌<◌, length, map, IfOk};
ghost use Rattle.std.specs.List.{All};
ghost use Rattle.ot_logic.specs.Naming.{names};
ghost use Rattle.ot_interp.specs.Interpretation.{renamed};
ghost use Rattle.ot_kernel.specs.State.{name_at};
ghost use Rattle.ot_machine.specs.Contexts.{context_of, AreCandidatesOf, IsContextOf};

use crate::session::Session;
use ot_interp::Interp;
use ot_kernel::{Candidates, ThmId};
use ot_logic::{Memory, NameId};
use ot_term::VarKey;
use ot_trace::StepId;
use std::alloc::Global;

/// A theorem that comes from another article, and the step that made it.
#[derive(Clone, Copy)]
pub struct Given {
    pub th: ThmId,
    pub step: StepId,
}

/// How an article's names of symbols are read, and the theorems that come from other articles, in order.
#[derive(Clone, Copy)]
pub struct Context<'a> {
    pub interp: &'a Interp,
    pub theorems: &'a [Given],
    /// The same theorems, as they are found.
    pub candidates: &'a Candidates,
}

impl Session {
    /// Theorems of this session, as they are found.
    pub fn candidates_of(&self, alloc: Global, theorems: &[Given]) -> Result<Candidates, Memory>
        requires { All (λ g. g.th < length self.now.kernel.theorems) theorems.now }
        ensures { IfOk result (AreCandidatesOf self.now theorems.now) }
    {
        let mut candidates = Vec::new(alloc);
        for given in theorems {
            candidates.push(given.th)?;
        }
        self.kernel.candidates(alloc, candidates)
    }

    /// The name of a constant that an article calls by this name.
    pub(crate) fn constant_named(&self, context: &Context<'_>, name: NameId) -> NameId
        requires context { IsContextOf self.now context.now }
        requires name { name < length self.now.kernel.names }
        ensures renamed { name_at self.now.kernel result
            ≡ renamed names (context_of self.now context.now).interpretation.constants
            (name_at self.now.kernel name) }
        ensures inside { result < length self.now.kernel.names }
    {
        self.kernel.sound();
        context.interp.constant(name)
    }

    /// The names of the constants that an article calls by the names of these pairs.
    pub(crate) fn constants_named(
        &self,
        alloc: Global,
        context: &Context<'_>,
        pairs: &[(NameId, VarKey)],
    ) -> Result<Vec<NameId>, Memory>
        requires context { IsContextOf self.now context.now }
        requires names { All (λ p. p.0 < length self.now.kernel.names) pairs.now }
        ensures renamed { IfOk result (λ v. map (name_at self.now.kernel) v.items
            ≡ map (λ p. renamed names (context_of self.now context.now).interpretation.constants
            (name_at self.now.kernel p.0)) pairs.now) }
        ensures inside { IfOk result (λ v. All (λ n. n < length self.now.kernel.names) v.items) }
    {
        let mut names = Vec::new(alloc);
        for pair in pairs {
            names.push(self.constant_named(context, pair.0))?;
        }
        Ok(names)
    }

    /// The name of a type operator that an article calls by this name.
    pub(crate) fn type_op_named(&self, context: &Context<'_>, name: NameId) -> NameId
        requires context { IsContextOf self.now context.now }
        requires name { name < length self.now.kernel.names }
        ensures renamed { name_at self.now.kernel result
            ≡ renamed names (context_of self.now context.now).interpretation.type_ops (name_at self.now.kernel name) }
        ensures inside { result < length self.now.kernel.names }
    {
        self.kernel.sound();
        context.interp.type_op(name)
    }
}
