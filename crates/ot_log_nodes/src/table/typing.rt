//! Types of nameless terms under binders. A part that is shared is worked on once for each list of
//! types that its places lead to, and the first part without a type ends the walk.
ghost use Rattle.std.specs.Prelude.{◌≡◌, ◌&&◌, ◌∷◌, [], List, Some, IfOk, OnOk};
ghost use Rattle.std.specs.Option.{ForSome};
ghost use Rattle.ot_logic.specs.Names.{Name};
ghost use Rattle.ot_logic.specs.Table.{Extends};
ghost use Rattle.ot_logic.specs.Trees.{Ty, Tm, Bound, App, Abs};

use crate::node::{TermId, TermNode, TypeId};
use crate::table::Nodes;
use crate::table::lists::{ListId, Lists};
use crate::table::places::PlaceTables;
use indexmap::IndexMap;
use ot_logic::Memory;
use std::alloc::Global;

/// How deep the types of a sequent's terms may nest.
pub const DEPTH_LIMIT: u64 = 4128;

/// The type of a term, and whether the type of each part is within the nesting limit.
#[derive(Clone, Copy)]
pub struct Typed {
    pub ty: TypeId,
    pub within: bool,
}

/// A term under binders.
#[derive(Clone, Copy, PartialEq, Eq, Hash)]
pub(crate) struct Scope {
    id: TermId,
    binders: ListId,
}

/// What is known of the types of terms. It stays right when the table grows. Of a term that has no
/// type nothing is kept: the walk ends there, and so does a log.
#[derive(Drop)]
pub struct Typings {
    known: Known,
}

/// What is known.
#[derive(Drop)]
pub(crate) struct Known {
    entries: Entries,
}

/// Lists of binders, the places of terms, and the types of terms under lists of binders.
#[derive(Drop)]
pub(crate) struct Entries {
    lists: Lists,
    places: PlaceTables,
    types: IndexMap<Scope, Typed>,
}

impl Typings {
    ghost use Rattle.ot_log_nodes.specs.Items.{Item};
    ghost use Rattle.ot_log_nodes.specs.Typing.{AreTypings};

    /// Nothing is known.
    pub fn new(alloc: Global) -> Typings
        ensures { (ts : List Item) → AreTypings ts result.known.entries }
    {
        let entries = Entries {
            lists: Lists::new(alloc),
            places: PlaceTables::new(alloc),
            types: IndexMap::new(alloc),
        };
        Typings {
            known: Known { entries },
        }
    }
}

impl Nodes {
    ghost use Rattle.ot_log_nodes.specs.Items.{HasType, HasTerm, type_at, term_at};
    ghost use Rattle.ot_log_nodes.specs.Lists.{types_of, AreBinders};
    ghost use Rattle.ot_log_nodes.specs.Places.{ArePlaces, ArePlaceTables};
    ghost use Rattle.ot_log_nodes.specs.Typing.{binders_at, is_leaf, HasTyping, IsTyping, IsTyped, IsCut, AreTypings};

    /// The type of a term under no abstraction, or `None` where it isn't well typed.
    pub fn typing(&mut self, typings: &mut Typings, id: TermId) -> Result<Option<Typed>, Memory>
        requires id { HasTerm self.old id }
        requires known { AreTypings self.old typings.old.known.entries }
        ensures ok { IfOk result (IsTyping self.new [] (term_at self.old id)) }
        ensures extends { Extends self.old self.new }
        ensures known { OnOk result (AreTypings self.new typings.new.known.entries) }
    {
        if self.loose(id) > 0 {
            return Ok(None);
        }
        self.typing_under(&mut typings.known.entries, ListId::EMPTY, id)
    }

    /// The type of a term under binders. It is looked up, and kept, under those that count to the term.
    #[cycle(typing)]
    fn typing_under(
        &mut self,
        known: &mut Entries,
        binders: ListId,
        id: TermId,
    ) -> Result<Option<Typed>, Memory>
        requires id { HasTerm self.old id }
        requires binders { AreBinders self.old known.old.lists binders }
        requires known { AreTypings self.old known.old }
        ensures ok { IfOk result (IsTyping self.new (binders_at self.old (types_of known.old.lists
            binders)) (term_at self.old id)) }
        ensures extends { Extends self.old self.new }
        ensures lists { Extends known.old.lists known.new.lists }
        ensures known { OnOk result (AreTypings self.new known.new) }
    {
        if self.is_leaf(id) {
            return self.typing_node(known, binders, id);
        }
        let places = self.places_of(&mut known.lists, &mut known.places, id)?;
        let near = self.near(&mut known.lists, binders, places.list, places.met, id)?;
        let found = self.known_typing(known, places.met, near, id);
        if let Some(typed) = found {
            return Ok(Some(typed));
        }
        let typing = self.typing_node(known, near, id)?;
        let Some(typed) = typing else {
            return Ok(None);
        };
        self.keep_typing(known, places.list, places.met, near, id, &typed)?;
        Ok(Some(typed))
    }

    /// Whether a term has no parts.
    fn is_leaf(&self, id: TermId) -> bool
        requires { HasTerm self.now id }
        ensures { result ≡ is_leaf (term_at self.now id) }
    {
        match self.term_node(id) {
            TermNode::Free(_) => true,
            TermNode::Const(_, _) => true,
            TermNode::Bound(_) => true,
            TermNode::App(_, _) => false,
            TermNode::Abs(_, _) => false,
        }
    }

    /// Of the binders around a term those that count to it, where its type may be known under them; else all.
    fn near(
        &self,
        lists: &mut Lists,
        binders: ListId,
        places: ListId,
        met: bool,
        id: TermId,
    ) -> Result<ListId, Memory>
        requires binders { AreBinders self.now lists.old binders }
        requires places { ArePlaces lists.old places (term_at self.now id) }
        ensures binders { IfOk result (AreBinders self.now lists.new) }
        ensures cut { IfOk result (λ r. IsCut self.now (binders_at self.now (types_of lists.old
            binders)) (term_at self.now id) (types_of lists.new r)) }
        ensures lists { Extends lists.old lists.new }
    {
        if met {
            self.cut(lists, binders, places, id)
        } else {
            Ok(binders)
        }
    }

    /// Of the binders around a term those that count to it.
    fn cut(
        &self,
        lists: &mut Lists,
        binders: ListId,
        places: ListId,
        id: TermId,
    ) -> Result<ListId, Memory>
        requires binders { AreBinders self.now lists.old binders }
        requires places { ArePlaces lists.old places (term_at self.now id) }
        ensures binders { IfOk result (AreBinders self.now lists.new) }
        ensures cut { IfOk result (λ r. IsCut self.now (binders_at self.now (types_of lists.old
            binders)) (term_at self.now id) (types_of lists.new r)) }
        ensures lists { Extends lists.old lists.new }
    {
        lists.cut(binders, places)
    }

    /// What is known of a term under these binders.
    fn known_typing(&self, known: &Entries, met: bool, binders: ListId, id: TermId) -> Option<Typed>
        requires { AreTypings self.now known.now }
        ensures { ForSome result (HasTyping self.now (binders_at self.now (types_of known.now.lists
            binders)) (term_at self.now id)) }
    {
        if !met {
            return None;
        }
        match known.types.get(&Scope { id, binders }) {
            Some(typed) => Some(*typed),
            None => None,
        }
    }

    /// Keeps the typing of a term under these binders, of which those that count to it are taken.
    fn keep_typing(
        &self,
        known: &mut Entries,
        places: ListId,
        met: bool,
        binders: ListId,
        id: TermId,
        typed: &Typed,
    ) -> Result<(), Memory>
        requires id { HasTerm self.now id }
        requires places { ArePlaces known.old.lists places (term_at self.now id) }
        requires binders { AreBinders self.now known.old.lists binders }
        requires known { AreTypings self.now known.old }
        requires typed { HasTyping self.now (binders_at self.now (types_of known.old.lists binders))
            (term_at self.now id) typed.now }
        ensures lists { Extends known.old.lists known.new.lists }
        ensures known { OnOk result (AreTypings self.now known.new) }
    {
        let binders = self.cut(&mut known.lists, binders, places, id)?;
        self.keep_met(&known.lists, &mut known.places, places, met, id)?;
        known.types.insert(Scope { id, binders }, *typed)?;
        Ok(())
    }

    /// Keeps that the type of a term is known, if it wasn't.
    fn keep_met(
        &self,
        lists: &Lists,
        tables: &mut PlaceTables,
        places: ListId,
        met: bool,
        id: TermId,
    ) -> Result<(), Memory>
        requires id { HasTerm self.now id }
        requires places { ArePlaces lists.now places (term_at self.now id) }
        requires known { ArePlaceTables self.now lists.now tables.old }
        ensures { OnOk result (ArePlaceTables self.now lists.now tables.new) }
    {
        if met {
            return Ok(());
        }
        self.keep_places(lists, tables, id, places, true)
    }

    /// The type of a term under binders, by its node.
    #[cycle(typing)]
    fn typing_node(
        &mut self,
        known: &mut Entries,
        binders: ListId,
        id: TermId,
    ) -> Result<Option<Typed>, Memory>
        requires id { HasTerm self.old id }
        requires binders { AreBinders self.old known.old.lists binders }
        requires known { AreTypings self.old known.old }
        ensures ok { IfOk result (IsTyping self.new (binders_at self.old (types_of known.old.lists
            binders)) (term_at self.old id)) }
        ensures extends { Extends self.old self.new }
        ensures lists { Extends known.old.lists known.new.lists }
        ensures known { OnOk result (AreTypings self.new known.new) }
    {
        match self.term_node(id) {
            TermNode::Free(v) => Ok(Some(self.typed(v.ty, true))),
            TermNode::Const(_, ty) => Ok(Some(self.typed(ty, true))),
            TermNode::Bound(place) => Ok(self.typing_bound(&known.lists, binders, place)),
            TermNode::App(f, x) => {
                let f = self.typing_under(known, binders, f)?;
                let Some(f) = f else {
                    return Ok(None);
                };
                let x = self.typing_under(known, binders, x)?;
                Ok(self.applied_to(f, x))
            }
            TermNode::Abs(ty, body) => {
                let inner = self.inside(known, binders, ty, body)?;
                let body = self.typing_under(known, inner, body)?;
                self.abstracted(ty, body)
            }
        }
    }

    /// The binders that count to the body of an abstraction.
    fn inside(
        &self,
        known: &mut Entries,
        binders: ListId,
        ty: TypeId,
        body: TermId,
    ) -> Result<ListId, Memory>
        requires ty { HasType self.now ty }
        requires body { HasTerm self.now body }
        requires binders { AreBinders self.now known.old.lists binders }
        requires known { AreTypings self.now known.old }
        ensures binders { IfOk result (AreBinders self.now known.new.lists) }
        ensures cut { IfOk result (λ r. IsCut self.now (type_at self.now ty ∷ binders_at self.now
            (types_of known.old.lists binders)) (term_at self.now body) (types_of known.new.lists r)) }
        ensures lists { Extends known.old.lists known.new.lists }
        ensures known { OnOk result (AreTypings self.now known.new) }
    {
        let places = self.places_of(&mut known.lists, &mut known.places, body)?;
        let all = known.lists.under(ty, binders)?;
        self.cut(&mut known.lists, all, places.list, body)
    }

    /// The typing of a term of this type, where its parts are so.
    fn typed(&self, ty: TypeId, parts_within: bool) -> Typed
        requires { HasType self.now ty }
        ensures { IsTyped self.now ty parts_within result }
    {
        Typed {
            ty,
            within: self.type_depth(ty) <= DEPTH_LIMIT && parts_within,
        }
    }

    /// The typing of a place.
    fn typing_bound(&self, lists: &Lists, binders: ListId, place: u64) -> Option<Typed>
        requires { AreBinders self.now lists.now binders }
        ensures { IsTyping self.now (binders_at self.now (types_of lists.now binders)) (Bound place)
            result }
    {
        match lists.type_of(binders, place) {
            Some(ty) => Some(self.typed(ty, true)),
            None => None,
        }
    }

    /// The typing of an application of a term that has a type.
    fn applied_to(&self, f: Typed, x: Option<Typed>) -> Option<Typed>
        requires { HasType self.now f.ty }
        ensures { (l : List (Ty Name)) (t u : Tm Name) → IsTyping self.now l t (Some f) → IsTyping
            self.now l u x → IsTyping self.now l (App t u) result }
    {
        match x {
            Some(x) => self.applied_at(f, x),
            None => None,
        }
    }

    /// The typing of an application to a term that has a type, too.
    fn applied_at(&self, f: Typed, x: Typed) -> Option<Typed>
        requires { HasType self.now f.ty }
        ensures { (l : List (Ty Name)) (t u : Tm Name) → IsTyping self.now l t (Some f) → IsTyping
            self.now l u (Some x) → IsTyping self.now l (App t u) result }
    {
        self.primitives();
        match self.as_fun(f.ty) {
            Some(parts) => {
                if parts.0 == x.ty {
                    Some(self.typed(parts.1, both(f.within, x.within)))
                } else {
                    None
                }
            }
            None => None,
        }
    }

    /// The typing of an abstraction.
    fn abstracted(&mut self, ty: TypeId, body: Option<Typed>) -> Result<Option<Typed>, Memory>
        requires ty { HasType self.old ty }
        requires body { ForSome body (λ b. HasType self.old b.ty) }
        ensures ok { IfOk result (λ r. (l : List (Ty Name)) (b : Tm Name) → IsTyping self.old
            (type_at self.old ty ∷ l) b body → IsTyping self.new l (Abs (type_at self.old ty) b) r) }
        ensures extends { Extends self.old self.new }
    {
        match body {
            Some(body) => {
                let fun = self.fun(ty, body.ty)?;
                Ok(Some(self.typed(fun, body.within)))
            }
            None => Ok(None),
        }
    }
}

/// Whether both hold.
fn both(a: bool, b: bool) -> bool
    ensures { result ≡ (a && b) }
{
    a && b
}
