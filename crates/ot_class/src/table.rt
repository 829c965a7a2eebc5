//! The table: its shapes and lists, and how classes are made.
ghost use Rattle.std.specs.Prelude.{◌≡◌, ◌↔◌, ◌<◌, ℕ, [], ◌∷◌, Some, map, slice_get, length, IfOk, Decides};
ghost use Rattle.ot_logic.specs.Lists.{IsMember, AreDistinct};
ghost use Rattle.ot_logic.specs.NamedTerms.{place};
ghost use Rattle.ot_logic.specs.Naming.{numbers};
ghost use Rattle.ot_shape.specs.Shape.{joined, without, var_class, const_class, app_class, abs_class};
ghost use Rattle.ot_lists.specs.Variables.{numbered, variable_by, variable_of, list_at};

mod free;

use crate::id::{ClassId, ShapeId};
use crate::node::{Pair, ShapeNode};
use indexmap::IndexMap;
use ot_lists::{Joined, Key, ListId, Lists, Maps, join};
use ot_logic::{Memory, NameId};
use ot_type::TypeId;
use std::alloc::Global;
use std::marker::Model;

/// Alpha classes, each with a number that it keeps. Types are taken by number, so contracts see the type with the number
/// k as the type variable k.
#[derive(Drop)]
pub struct Classes {
    lists: Lists,
    maps: Maps,
    // Lists that were joined, with what came of it.
    joins: IndexMap<Pair, Joined>,
    shapes: IndexMap<ShapeNode, ()>,
}

impl Model for Classes {
    ghost use Rattle.ot_class.specs.Class.{ClassTable, coded_table};

    ghost Value = { ClassTable };

    ghost coded = { coded_table };

    ghost use Rattle.ot_class.specs.Table.{shapes_of, IsClassSound};

    ghost view = { λ t. record { shapes = shapes_of t.maps t.shapes.entries; lists = t.lists; maps = t.maps } };

    ghost invariant = { λ t. IsClassSound t.lists t.maps t.joins.entries t.shapes.entries };
}

impl Classes {
    ghost use Rattle.ot_class.specs.Class.{class_at, shape_at, IsNumber, IsNumberOf, Grows, AreOnce};
    ghost use Rattle.ot_class.specs.Table.{shape_of, AreBelow};

    /// The table with no classes. It takes no memory.
    pub fn new(alloc: Global) -> Classes
        ensures { result ≡ record { shapes = []; lists = []; maps = [] } }
    {
        Classes {
            lists: Lists::new(alloc),
            maps: Maps::new(alloc),
            joins: IndexMap::new(alloc),
            shapes: IndexMap::new(alloc),
        }
    }

    /// The class of a variable.
    pub fn var(&mut self, v: Key) -> Result<ClassId, Memory>
        ensures ok { IfOk result (IsNumberOf self.new (var_class numbers (variable_of v))) }
        ensures grows { Grows self.old self.new }
        ensures once { AreOnce self.new }
    {
        let shape = self.intern(ShapeNode::Var)?;
        let list = self.list_of(v)?;
        Ok(ClassId::new(shape, list))
    }

    /// The class of a constant at a type.
    pub fn constant(&mut self, name: NameId, ty: TypeId) -> Result<ClassId, Memory>
        ensures ok { IfOk result (IsNumberOf self.new (const_class numbers name (numbered ty))) }
        ensures grows { Grows self.old self.new }
        ensures once { AreOnce self.new }
    {
        let shape = self.intern(ShapeNode::Const(name, ty))?;
        let list = self.empty_list()?;
        Ok(ClassId::new(shape, list))
    }

    /// The class of the application of a function to an argument.
    pub fn app(&mut self, f: ClassId, x: ClassId) -> Result<ClassId, Memory>
        requires f { IsNumber self.old f }
        requires x { IsNumber self.old x }
        ensures ok { IfOk result
            (IsNumberOf self.new (app_class numbers (class_at self.old f) (class_at self.old x))) }
        ensures grows { Grows self.old self.new }
        ensures once { AreOnce self.new }
    {
        let left = f.shape();
        let right = x.shape();
        let left_list = f.list();
        let right_list = x.list();
        let joined = self.join(left_list, right_list)?;
        let shape = self.intern(ShapeNode::App(left, right, joined.map))?;
        Ok(ClassId::new(shape, joined.list))
    }

    /// The class of the abstraction of a variable from a body.
    pub fn abs(&mut self, v: Key, body: ClassId) -> Result<ClassId, Memory>
        requires { IsNumber self.old body }
        ensures ok { IfOk result
            (IsNumberOf self.new (abs_class numbers (variable_of v) (class_at self.old body))) }
        ensures grows { Grows self.old self.new }
        ensures once { AreOnce self.new }
    {
        let place = self.place_of(body.list(), &v)?;
        match place {
            None => {
                let shape = self.intern(ShapeNode::Unused(v.ty, body.shape()))?;
                Ok(ClassId::new(shape, body.list()))
            }
            Some(hole) => {
                let shape = self.intern(ShapeNode::Abs(v.ty, hole, body.shape()))?;
                let list = self.list_without(body.list(), v)?;
                Ok(ClassId::new(shape, list))
            }
        }
    }

    /// The place of a variable in a list, where it stands there.
    fn place_of(&self, id: ListId, v: &Key) -> Result<Option<u32>, Memory>
        requires { id < length self.now.lists }
        ensures place { IfOk result (λ o. o ≡ place numbers (list_at self.now.lists id) (variable_of v.now)) }
        ensures once { AreOnce self.now }
    {
        self.lists.place_of(id, v)
    }

    /// The list of one variable.
    fn list_of(&mut self, v: Key) -> Result<ListId, Memory>
        ensures ok { IfOk result (λ id. slice_get self.new.lists id ≡ Some (variable_of v ∷ [])) }
        ensures grows { Grows self.old self.new }
        ensures once { AreOnce self.new }
    {
        let empty = self.empty_list()?;
        Ok(self.lists.push(empty, v)?)
    }

    /// The list without variables.
    fn empty_list(&mut self) -> Result<ListId, Memory>
        ensures ok { IfOk result (λ id. slice_get self.new.lists id ≡ Some []) }
        ensures grows { Grows self.old self.new }
        ensures once { AreOnce self.new }
    {
        Ok(self.lists.empty()?)
    }

    /// A list without a variable.
    fn list_without(&mut self, id: ListId, v: Key) -> Result<ListId, Memory>
        requires { id < length self.old.lists }
        ensures ok { IfOk result
            (λ r. slice_get self.new.lists r ≡ Some (without numbers (variable_of v) (list_at self.old.lists id))) }
        ensures grows { Grows self.old self.new }
        ensures once { AreOnce self.new }
    {
        Ok(self.lists.without(id, v)?)
    }

    /// The list of a function with the variables that an argument adds, and which holes of the argument the function
    /// has. Equal lists, and a list and none, are joined at once.
    fn join(&mut self, f: ListId, x: ListId) -> Result<Joined, Memory>
        requires f { f < length self.old.lists }
        requires x { x < length self.old.lists }
        ensures list { IfOk result (λ j. slice_get self.new.lists j.list
            ≡ Some (joined numbers (list_at self.old.lists f) (list_at self.old.lists x))) }
        ensures maps { IfOk result (λ j. slice_get self.new.maps j.map
            ≡ Some (map (place numbers (list_at self.old.lists f)) (list_at self.old.lists x))) }
        ensures shapes { self.new.shapes ≡ self.old.shapes }
        ensures grows { Grows self.old self.new }
        ensures once { AreOnce self.new }
    {
        if f == x || self.lists.len(f) == 0 || self.lists.len(x) == 0 {
            return self.join_lists(f, x);
        }
        self.join_remembered(f, x)
    }

    /// Joins two lists.
    fn join_lists(&mut self, f: ListId, x: ListId) -> Result<Joined, Memory>
        requires f { f < length self.old.lists }
        requires x { x < length self.old.lists }
        ensures list { IfOk result (λ j. slice_get self.new.lists j.list
            ≡ Some (joined numbers (list_at self.old.lists f) (list_at self.old.lists x))) }
        ensures maps { IfOk result (λ j. slice_get self.new.maps j.map
            ≡ Some (map (place numbers (list_at self.old.lists f)) (list_at self.old.lists x))) }
        ensures shapes { self.new.shapes ≡ self.old.shapes }
        ensures grows { Grows self.old self.new }
        ensures once { AreOnce self.new }
    {
        let joined = join(&mut self.lists, &mut self.maps, f, x)?;
        Ok(joined)
    }

    /// Joins two lists. What comes of them is remembered.
    fn join_remembered(&mut self, f: ListId, x: ListId) -> Result<Joined, Memory>
        requires f { f < length self.old.lists }
        requires x { x < length self.old.lists }
        ensures list { IfOk result (λ j. slice_get self.new.lists j.list
            ≡ Some (joined numbers (list_at self.old.lists f) (list_at self.old.lists x))) }
        ensures maps { IfOk result (λ j. slice_get self.new.maps j.map
            ≡ Some (map (place numbers (list_at self.old.lists f)) (list_at self.old.lists x))) }
        ensures shapes { self.new.shapes ≡ self.old.shapes }
        ensures grows { Grows self.old self.new }
        ensures once { AreOnce self.new }
    {
        let pair = Pair { f, x };
        if let Some(joined) = self.joins.get(&pair) {
            return Ok(Joined {
                map: joined.map,
                list: joined.list,
            });
        }
        let joined = join(&mut self.lists, &mut self.maps, f, x)?;
        let kept = Joined {
            map: joined.map,
            list: joined.list,
        };
        self.joins.insert(pair, kept)?;
        Ok(joined)
    }

    /// The number of a node, which is added where it is new.
    fn intern(&mut self, node: ShapeNode) -> Result<ShapeId, Memory>
        requires { AreBelow (length self.old.maps) (length self.old.shapes) node }
        ensures ok { IfOk result
            (λ id. slice_get self.new.shapes id ≡ Some (shape_of self.old.maps self.old.shapes node)) }
        ensures lists { self.new.lists ≡ self.old.lists }
        ensures grows { Grows self.old self.new }
        ensures once { AreOnce self.new }
    {
        Memory::unless_full(self.shapes.len())?;
        let (index, _) = self.shapes.insert_full(node, ())?;
        Ok(ShapeId(index as u32))
    }
}
