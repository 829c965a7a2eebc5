//! The table: its nodes, what stands beside them, and how they are read.
ghost use Rattle.std.specs.Prelude.{◌≡◌, ◌<◌, ◌≤◌, max, [], Some, slice_get};
ghost use Rattle.std.specs.Prelude.{slice_index_or, length, IfOk, IfSome, OnErr, Decides};
ghost use Rattle.ot_logic.specs.Trees.{NVar};
ghost use Rattle.ot_logic.specs.Hol.{depth_limit};
ghost use Rattle.ot_logic.specs.NamedTerms.{named_type, named_depth};
ghost use Rattle.ot_logic.specs.Naming.{numbers};
ghost use Rattle.ot_logic.specs.Bounds.{bound_named, names_in_terms};
ghost use Rattle.ot_type.specs.TypeTable.{type_at};
ghost use Rattle.ot_term.specs.TermTable.{classes_of};
ghost use Rattle.ot_class.specs.Class.{IsNumberOf, Grows as ClassesGrow, AreOnce};
ghost use Rattle.ot_term.specs.Classing.{form_with, form_class, IsFormBelow, PartsBelow};

mod build;
mod equation;
mod free;
mod gather;
mod types;
mod walk;

use crate::term::{TermId, TermNode, VarKey};
use indexmap::IndexMap;
use ot_class::{ClassId, Classes, Key};
use ot_logic::{Memory, NameId};
use ot_near::NearMap;
use ot_type::{TypeId, Types};
use std::alloc::Global;
use std::marker::Model;

/// What stands beside a node: the number of its type, its depth, and the number of its class.
#[derive(Clone, Copy)]
struct NodeInfo {
    ty: TypeId,
    depth: u32,
    class: ClassId,
}

/// A node, with the classes of its parts in their place.
#[derive(Clone, Copy)]
enum Form {
    Var(VarKey),
    Const(NameId, TypeId),
    App(ClassId, ClassId),
    Abs(VarKey, ClassId),
}

/// Terms over types, each with a number that it keeps. A table owns its types and lends none of them for writing.
#[derive(Drop)]
pub struct Terms {
    types: Types,
    // Classes over the numbers of the types; there may be more than the terms have.
    classes: Classes,
    nodes: NearMap<TermNode, NodeInfo>,
    // By types, where the constant `=` at a type may stand: what is found is looked at before it is used.
    equalities: IndexMap<TypeId, TermId>,
}

impl Model for Terms {
    ghost use Rattle.ot_term.specs.Term.{TermTable, coded_table};

    ghost Value = { TermTable };

    ghost coded = { coded_table };

    ghost use Rattle.ot_term.specs.TermTable.{terms_of, classes_of, IsTermSound};

    ghost view = { λ t. record { types = t.types; terms = terms_of t.types t.nodes.entries; classes = classes_of t.nodes.entries } };

    ghost invariant = { λ t. IsTermSound t.types t.classes t.nodes.entries (terms_of t.types t.nodes.entries) };
}

impl Terms {
    ghost use Rattle.ot_term.specs.TermTable.{term_at, term_of, variable_of, AreBelow, Suits, Grows, IsTermTable};

    /// A table with no types and no terms. It takes no memory.
    pub fn new(alloc: Global) -> Terms
        ensures { result ≡ record { types = []; terms = []; classes = [] } }
    {
        Terms {
            types: Types::new(alloc),
            classes: Classes::new(alloc),
            nodes: NearMap::new(alloc),
            equalities: IndexMap::new(alloc),
        }
    }

    /// The types.
    pub fn types(&self) -> &Types
        ensures types { result.now ≡ self.now.types }
        ensures table { IsTermTable self.now }
    {
        &self.types
    }

    /// The node of a term. Its parts have lower numbers.
    pub fn node(&self, id: TermId) -> &TermNode
        requires { id < length self.now.terms }
        ensures tree { slice_get self.now.terms id ≡ Some (term_of self.now.types self.now.terms result.now) }
        ensures below { AreBelow (length self.now.types) id result.now }
        ensures table { IsTermTable self.now }
    {
        match self.nodes.get_index(id.0 as usize) {
            Some((node, _)) => node,
            None => unreachable!(),
        }
    }

    /// Whether a term is this variable.
    pub fn is_var(&self, id: TermId, v: &VarKey) -> bool
        requires term { id < length self.now.terms }
        requires ty { v.now.ty < length self.now.types }
        ensures { Decides result (term_at self.now.terms id ≡ NVar (variable_of self.now.types v.now)) }
    {
        *self.node(id) == TermNode::Var(*v)
    }

    /// The type of a term.
    pub fn type_of(&self, id: TermId) -> TypeId
        requires { id < length self.now.terms }
        ensures below { result < length self.now.types }
        ensures typed { named_type numbers (term_at self.now.terms id) ≡ Some (type_at self.now.types result) }
        ensures table { IsTermTable self.now }
    {
        match self.nodes.get_index(id.0 as usize) {
            Some((_, beside)) => beside.ty,
            None => unreachable!(),
        }
    }

    /// The alpha class of a term: two terms have one class exactly where they differ at most in the names of their
    /// binders. A term keeps its class.
    pub fn class(&self, id: TermId) -> ClassId
        requires { id < length self.now.terms }
        ensures class { slice_get self.now.classes id ≡ Some result }
        ensures table { IsTermTable self.now }
    {
        match self.nodes.get_index(id.0 as usize) {
            Some((_, beside)) => beside.class,
            None => unreachable!(),
        }
    }

    /// How deep the term is.
    fn depth(&self, id: TermId) -> u32
        requires { id < length self.now.terms }
        ensures depth { result ≡ named_depth numbers (term_at self.now.terms id) }
        ensures limit { result ≤ depth_limit }
        ensures table { IsTermTable self.now }
    {
        match self.nodes.get_index(id.0 as usize) {
            Some((_, beside)) => beside.depth,
            None => unreachable!(),
        }
    }

    /// The number of a node that the table has.
    fn find(&self, node: &TermNode) -> Option<TermId>
        ensures found { IfSome result (λ id. slice_get self.now.terms id
            ≡ Some (term_of self.now.types self.now.terms node.now)) }
        ensures table { IsTermTable self.now }
    {
        let index = self.nodes.find(*node)?;
        match u32::try_from(index) {
            Ok(number) => Some(TermId(number)),
            Err(_) => None,
        }
    }

    /// The number of a node, which is added where it is new. Its type and its depth are given.
    fn intern(&mut self, node: TermNode, ty: TypeId, depth: u32) -> Result<TermId, Memory>
        requires below { AreBelow (length self.old.types) (length self.old.terms) node }
        requires suits { Suits self.old.types (term_of self.old.types self.old.terms node) ty depth }
        ensures ok { IfOk result
            (λ id. slice_get self.new.terms id ≡ Some (term_of self.old.types self.old.terms node)) }
        ensures types { self.new.types ≡ self.old.types }
        ensures grows { Grows self.old self.new }
        ensures names { names_in_terms self.new.terms
            ≤ max (names_in_terms self.old.terms) (bound_named (term_of self.old.types self.old.terms node)) }
        ensures err { OnErr result (self.new ≡ self.old) }
        ensures table { IsTermTable self.new }
    {
        Memory::unless_full(self.nodes.len())?;
        match self.nodes.find(node) {
            Some(index) => Ok(TermId(index as u32)),
            None => {
                let form = with_classes(&self.nodes, &node);
                let class = class_of(&mut self.classes, form)?;
                let beside = NodeInfo { ty, depth, class };
                let (index, _) = self.nodes.insert_full(node, beside)?;
                Ok(TermId(index as u32))
            }
        }
    }
}

/// A node with the classes that stand beside its parts.
fn with_classes(nodes: &NearMap<TermNode, NodeInfo>, node: &TermNode) -> Form
    requires parts { PartsBelow (length nodes.now.entries) node.now }
    ensures { result ≡ form_with (classes_of nodes.now.entries) node.now }
{
    match *node {
        TermNode::Var(v) => Form::Var(v),
        TermNode::Const(name, ty) => Form::Const(name, ty),
        TermNode::App(f, x) => Form::App(class_beside(nodes, f), class_beside(nodes, x)),
        TermNode::Abs(v, body) => Form::Abs(v, class_beside(nodes, body)),
    }
}

/// The class of a form.
fn class_of(classes: &mut Classes, form: Form) -> Result<ClassId, Memory>
    requires { IsFormBelow classes.old form }
    ensures ok { IfOk result (IsNumberOf classes.new (form_class classes.old form)) }
    ensures grows { ClassesGrow classes.old classes.new }
    ensures once { AreOnce classes.new }
{
    match form {
        Form::Var(v) => classes.var(key_of(v)),
        Form::Const(name, ty) => classes.constant(name, ty),
        Form::App(f, x) => classes.app(f, x),
        Form::Abs(v, body) => classes.abs(key_of(v), body),
    }
}

/// A variable, as the table of classes has it.
fn key_of(v: VarKey) -> Key
    ensures { result ≡ record { name = v.name; ty = v.ty } }
{
    Key {
        name: v.name,
        ty: v.ty,
    }
}

/// The class beside a node.
fn class_beside(nodes: &NearMap<TermNode, NodeInfo>, id: TermId) -> ClassId
    requires { id < length nodes.now.entries }
    ensures { result ≡ slice_index_or (classes_of nodes.now.entries) id 0 }
{
    match nodes.get_index(id.0 as usize) {
        Some((_, beside)) => beside.class,
        None => unreachable!(),
    }
}
