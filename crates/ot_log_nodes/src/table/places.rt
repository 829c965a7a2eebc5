//! The places of a term: which of the binders around it count to it. A list of places is one of binders that all have
//! the type of number 0.
ghost use Rattle.std.specs.Prelude.{◌≡◌, ◌≤◌, ◌∷◌, suc, length, IfOk, OnOk};
ghost use Rattle.ot_logic.specs.Table.{Extends};
ghost use Rattle.ot_log_nodes.specs.Lists.{list_at, HasList};
ghost use Rattle.ot_log_nodes.specs.Places.{ArePlaces, IsUnion, IsPast, AreUnions, ArePlaceTables};

use crate::node::{TermId, TermNode};
use crate::table::Nodes;
use crate::table::lists::{Link, ListId, Lists};
use indexmap::IndexMap;
use ot_logic::Memory;
use std::alloc::Global;

/// Two lists of places.
#[derive(Clone, Copy, PartialEq, Eq, Hash)]
pub(crate) struct Pair {
    left: ListId,
    right: ListId,
}

/// The places of a term, and whether its type is known under some binders. Where it isn't, the binders around it stay
/// as they are until it has a type: the walk may end at a part without one, and then no list was made on the way there.
#[derive(Clone, Copy)]
pub(crate) struct Places {
    pub(crate) list: ListId,
    pub(crate) met: bool,
}

/// What is known of places: those of two lists together, and those of terms.
#[derive(Drop)]
pub(crate) struct PlaceTables {
    unions: IndexMap<Pair, ListId>,
    terms: IndexMap<TermId, Places>,
}

impl PlaceTables {
    ghost use Rattle.std.specs.Prelude.{ℕ, List};
    ghost use Rattle.ot_log_nodes.specs.Items.{Item, HasTerm, term_at};

    /// Nothing is known.
    pub(crate) fn new(alloc: Global) -> PlaceTables
        ensures { (ts : List Item) (ls : List (List (ℕ × ℕ))) → ArePlaceTables ts ls result }
    {
        PlaceTables {
            unions: IndexMap::new(alloc),
            terms: IndexMap::new(alloc),
        }
    }
}

impl Nodes {
    ghost use Rattle.ot_log_nodes.specs.Items.{HasTerm, term_at};

    /// The places of a term.
    #[cycle(places)]
    pub(crate) fn places_of(
        &self,
        lists: &mut Lists,
        tables: &mut PlaceTables,
        id: TermId,
    ) -> Result<Places, Memory>
        requires id { HasTerm self.now id }
        requires known { ArePlaceTables self.now lists.old tables.old }
        ensures ok { IfOk result (λ p. ArePlaces lists.new p.list (term_at self.now id)) }
        ensures lists { Extends lists.old lists.new }
        ensures known { OnOk result (ArePlaceTables self.now lists.new tables.new) }
    {
        if self.loose(id) == 0 {
            return Ok(Places {
                list: ListId::EMPTY,
                met: true,
            });
        }
        if let Some(known) = tables.terms.get(&id) {
            return Ok(*known);
        }
        let list = self.places_of_node(lists, tables, id)?;
        self.keep_places(lists, tables, id, list, false)?;
        Ok(Places { list, met: false })
    }

    /// Keeps the places of a term.
    pub(crate) fn keep_places(
        &self,
        lists: &Lists,
        tables: &mut PlaceTables,
        id: TermId,
        list: ListId,
        met: bool,
    ) -> Result<(), Memory>
        requires id { HasTerm self.now id }
        requires places { ArePlaces lists.now list (term_at self.now id) }
        requires known { ArePlaceTables self.now lists.now tables.old }
        ensures { OnOk result (ArePlaceTables self.now lists.now tables.new) }
    {
        tables.terms.insert(id, Places { list, met })?;
        Ok(())
    }

    /// The same, by its node.
    #[cycle(places)]
    fn places_of_node(
        &self,
        lists: &mut Lists,
        tables: &mut PlaceTables,
        id: TermId,
    ) -> Result<ListId, Memory>
        requires id { HasTerm self.now id }
        requires known { ArePlaceTables self.now lists.old tables.old }
        ensures ok { IfOk result (λ p. ArePlaces lists.new p (term_at self.now id)) }
        ensures lists { Extends lists.old lists.new }
        ensures known { OnOk result (ArePlaceTables self.now lists.new tables.new) }
    {
        match self.term_node(id) {
            TermNode::Free(_) => Ok(ListId::EMPTY),
            TermNode::Const(_, _) => Ok(ListId::EMPTY),
            TermNode::Bound(place) => lists.place(place, ListId::EMPTY),
            TermNode::App(f, x) => {
                let f = self.places_of(lists, tables, f)?;
                let x = self.places_of(lists, tables, x)?;
                lists.union(&mut tables.unions, f.list, x.list)
            }
            TermNode::Abs(_, body) => {
                let body = self.places_of(lists, tables, body)?;
                lists.outside(body.list)
            }
        }
    }
}

impl Lists {
    /// The places of a list that begins with a link, as they are called outside of so many binders and one more.
    fn past(&mut self, link: Link, place: u64) -> Result<ListId, Memory>
        requires rest { HasList self.old link.rest }
        requires place { place ≤ link.skipped }
        ensures ok { IfOk result (IsPast self.new ((link.skipped, link.ty) ∷ list_at self.old link.rest) (suc place)) }
        ensures extends { Extends self.old self.new }
        ensures shorter { IfOk result (λ b. length (list_at self.new b) ≤ suc (length (list_at self.old link.rest))) }
        ensures short { IfOk result (λ b. place ≡ link.skipped → length (list_at self.new b) ≤ length
            (list_at self.old link.rest)) }
    {
        if link.skipped == place {
            return Ok(link.rest);
        }
        self.place(link.skipped - place - 1, link.rest)
    }

    /// The places of an abstraction, by those of its body.
    fn outside(&mut self, body: ListId) -> Result<ListId, Memory>
        requires { HasList self.old body }
        ensures ok { IfOk result (IsPast self.new (list_at self.old body) 1) }
        ensures extends { Extends self.old self.new }
    {
        match self.front(body) {
            Some(link) => self.past(link, 0),
            None => Ok(ListId::EMPTY),
        }
    }

    /// The places of two lists.
    #[cycle(union)]
    fn union(
        &mut self,
        unions: &mut IndexMap<Pair, ListId>,
        left: ListId,
        right: ListId,
    ) -> Result<ListId, Memory>
        requires left { HasList self.old left }
        requires right { HasList self.old right }
        requires known { AreUnions self.old unions.old.entries }
        ensures ok { IfOk result (IsUnion self.new (list_at self.old left) (list_at self.old right)) }
        ensures extends { Extends self.old self.new }
        ensures known { OnOk result (AreUnions self.new unions.new.entries) }
    {
        if left == right {
            return Ok(left);
        }
        let Some(first) = self.front(left) else {
            return Ok(right);
        };
        let Some(second) = self.front(right) else {
            return Ok(left);
        };
        let pair = Pair { left, right };
        if let Some(known) = unions.get(&pair) {
            return Ok(*known);
        }
        let union = self.union_of(unions, first, second)?;
        unions.insert(pair, union)?;
        Ok(union)
    }

    /// The places of two lists that begin with these links.
    #[cycle(union)]
    fn union_of(
        &mut self,
        unions: &mut IndexMap<Pair, ListId>,
        first: Link,
        second: Link,
    ) -> Result<ListId, Memory>
        requires first { HasList self.old first.rest }
        requires second { HasList self.old second.rest }
        requires known { AreUnions self.old unions.old.entries }
        ensures ok { IfOk result (IsUnion self.new ((first.skipped, first.ty) ∷ list_at self.old
            first.rest) ((second.skipped, second.ty) ∷ list_at self.old second.rest)) }
        ensures extends { Extends self.old self.new }
        ensures known { OnOk result (AreUnions self.new unions.new.entries) }
    {
        let place = first.skipped.min(second.skipped);
        let left = self.past(first, place)?;
        let right = self.past(second, place)?;
        let rest = self.union(unions, left, right)?;
        self.place(place, rest)
    }
}
