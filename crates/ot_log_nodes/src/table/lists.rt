//! Lists of binders, each once: of those around a part of a term, the ones that count to it. A list is its first binder
//! and the list of those behind it, so lists share their ends, and a far binder is as near as the first one.
ghost use Rattle.std.specs.Prelude.{◌≡◌, ℕ, List, ◌∷◌, [], slice_get, IfOk};
ghost use Rattle.std.specs.List.{All};
ghost use Rattle.ot_logic.specs.Table.{Extends};

use crate::node::TypeId;
use indexmap::IndexMap;
use ot_logic::Memory;
use std::alloc::Global;
use std::marker::Model;

/// The number of a list.
#[derive(Clone, Copy, PartialEq, Eq, Hash)]
pub(crate) struct ListId(usize);

impl Model for ListId {
    ghost use Rattle.std.specs.Prelude.{ℕ};

    ghost Value = { ℕ };

    ghost view = { λ n. n.0 };

    ghost inverse = { λ n. record { 0 = n } };
}

impl ListId {
    /// The number of the list of no binders. That of another one is one more than the place of its first link.
    pub(crate) const EMPTY: ListId = ListId(0);
}

/// A binder that counts, behind so many that don't, with its type; and the list behind it.
#[derive(Clone, Copy, PartialEq, Eq, Hash)]
pub(crate) struct Link {
    pub(crate) skipped: u64,
    pub(crate) ty: TypeId,
    pub(crate) rest: ListId,
}

/// Lists of binders, each with a number that it keeps. Beside a list stands another one that names its places, where
/// the list was made for them: a hint, by which a list that has these places is known at once.
#[derive(Drop)]
pub(crate) struct Lists {
    links: IndexMap<Link, ListId>,
}

impl Model for Lists {
    ghost use Rattle.std.specs.Prelude.{ℕ, List};
    ghost use Rattle.std.specs.Coded.{coded_list, coded×, coded_ℕ};

    ghost Value = { List (List (ℕ × ℕ)) };

    ghost coded = { coded_list (coded_list (coded× coded_ℕ coded_ℕ)) };

    ghost use Rattle.ot_log_nodes.specs.Lists.{lists_of, AreLinks};

    ghost view = { λ t. lists_of t.links.entries };

    ghost invariant = { λ t. AreLinks t.links.entries (lists_of t.links.entries) };
}

impl Lists {
    ghost use Rattle.ot_log_nodes.specs.Items.{Item, HasType};
    ghost use Rattle.ot_log_nodes.specs.Lists.{list_at, spread, HasList, IsList, IsFront, IsBehind, Agree};

    /// The table of the empty list alone. It takes no memory.
    pub(crate) fn new(alloc: Global) -> Lists
        ensures { result ≡ [] }
    {
        Lists {
            links: IndexMap::new(alloc),
        }
    }

    /// The list of a link and those behind it, made for these places.
    pub(crate) fn link(&mut self, link: Link, places: ListId) -> Result<ListId, Memory>
        requires rest { HasList self.old link.rest }
        requires places { HasList self.old places }
        ensures ok { IfOk result (λ id. IsList self.new id ((link.skipped, link.ty) ∷ list_at self.old
            link.rest)) }
        ensures extends { Extends self.old self.new }
    {
        let count = self.links.len();
        match self.links.get_index_of(&link) {
            Some(index) => Ok(ListId(index + 1)),
            None => {
                self.links.insert(link, places)?;
                Ok(ListId(count + 1))
            }
        }
    }

    /// The first link of a list.
    pub(crate) fn front(&self, list: ListId) -> Option<Link>
        requires { HasList self.now list }
        ensures { IsFront self.now (list_at self.now list) result }
    {
        let number = list.0;
        if number == 0 {
            return None;
        }
        match self.links.get_index(number - 1) {
            Some((link, _)) => Some(*link),
            None => unreachable!(),
        }
    }

    /// The list that names the places of a list, or some other one.
    pub(crate) fn places(&self, list: ListId) -> ListId
        requires { HasList self.now list }
        ensures { HasList self.now result }
    {
        let number = list.0;
        if number == 0 {
            return list;
        }
        match self.links.get_index(number - 1) {
            Some((_, places)) => *places,
            None => unreachable!(),
        }
    }

    /// The type of a place under binders.
    pub(crate) fn type_of(&self, binders: ListId, place: u64) -> Option<TypeId>
        requires { HasList self.now binders }
        ensures { result ≡ slice_get (spread (list_at self.now binders)) place }
    {
        let mut list = binders;
        let mut place = place;
        while let Some(link) = self.front(list) {
            if place <= link.skipped {
                return Some(link.ty);
            }
            place -= link.skipped + 1;
            list = link.rest;
        }
        None
    }

    /// The link of a binder that counts: its type, and the list behind it; or `None` where it isn't among the binders.
    fn behind(&self, binders: ListId, place: u64) -> Option<Link>
        requires { HasList self.now binders }
        ensures { IsBehind self.now (spread (list_at self.now binders)) place result }
    {
        let mut list = binders;
        let mut place = place;
        while let Some(link) = self.front(list) {
            if place == link.skipped {
                return Some(link);
            }
            if place < link.skipped {
                return None;
            }
            place -= link.skipped + 1;
            list = link.rest;
        }
        None
    }

    /// The list of binders with one more inside, which counts.
    pub(crate) fn under(&mut self, ty: TypeId, binders: ListId) -> Result<ListId, Memory>
        requires { HasList self.old binders }
        ensures ok { IfOk result (λ id. IsList self.new id ((0, ty) ∷ list_at self.old binders)) }
        ensures extends { Extends self.old self.new }
    {
        let places = self.places(binders);
        let all = self.place(0, places)?;
        let link = Link {
            skipped: 0,
            ty,
            rest: binders,
        };
        self.link(link, all)
    }

    /// The list of a place and those behind it, without a type.
    pub(crate) fn place(&mut self, skipped: u64, rest: ListId) -> Result<ListId, Memory>
        requires { HasList self.old rest }
        ensures ok { IfOk result (λ id. IsList self.new id ((skipped, 0) ∷ list_at self.old rest)) }
        ensures extends { Extends self.old self.new }
    {
        let link = Link {
            skipped,
            ty: TypeId::NONE,
            rest,
        };
        self.link(link, ListId::EMPTY)
    }

    /// Of binders those alone that count to a part with these places.
    pub(crate) fn cut(&mut self, binders: ListId, places: ListId) -> Result<ListId, Memory>
        requires binders { HasList self.old binders }
        requires places { HasList self.old places }
        ensures has { IfOk result (HasList self.new) }
        ensures agree { IfOk result (λ r. Agree (list_at self.old places) (spread (list_at self.old binders))
            (spread (list_at self.new r))) }
        ensures types { (ts : List Item) → All (HasType ts) (spread (list_at self.old binders))
            → IfOk result (λ r. All (HasType ts) (spread (list_at self.new r))) }
        ensures extends { Extends self.old self.new }
    {
        if self.places(binders) == places {
            return Ok(binders);
        }
        let Some(front) = self.front(places) else {
            return Ok(ListId::EMPTY);
        };
        let Some(binder) = self.behind(binders, front.skipped) else {
            return Ok(binders);
        };
        let rest = self.cut(binder.rest, front.rest)?;
        let link = Link {
            skipped: front.skipped,
            ty: binder.ty,
            rest,
        };
        self.link(link, places)
    }
}
