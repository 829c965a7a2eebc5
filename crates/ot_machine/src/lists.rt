//! Lists of objects of a machine of this session.
ghost use Rattle.std.specs.Prelude.{◌≡◌, ◌<◌, ◌≤◌, length, map, IfOk, OnErr};
ghost use Rattle.std.specs.List.{All};
ghost use Rattle.ot_kernel.specs.State.{name_at, type_at, term_at};
ghost use Rattle.ot_logic.specs.Hol.{depth_limit};
ghost use Rattle.ot_machine.specs.Objects.{list as a_list, nesting};
ghost use Rattle.ot_machine.specs.Meaning.{object_of, origin_of, list_at, lists_of, article_of, IsOf, IsIn, IsListIn};
ghost use Rattle.ot_machine.specs.Places.{as_each, types_on, terms_on, names_on};
ghost use Rattle.ot_machine.specs.Makers.{consed};
ghost use Rattle.ot_machine.specs.Rows.{constants_of, origin_at};
ghost use Rattle.ot_machine.specs.Answers.{Makes};

use crate::element::Element;
use crate::fault::Fault;
use crate::machine::Machine;
use crate::object::{Cell, List, Object};
use crate::session::Session;
use ot_logic::{DEPTH_LIMIT, Memory, NameId};
use ot_term::TermId;
use ot_trace::StepId;
use ot_type::TypeId;
use std::alloc::Global;

impl Session {
    /// The list of a head and a tail.
    #[inline(always)]
    pub(crate) fn cons(
        &self,
        machine: &mut Machine,
        head: Object,
        tail: List,
    ) -> Result<List, Fault>
        requires of { IsOf self.now machine.old }
        requires head { IsIn self.now.kernel (length machine.old.cells.items) head }
        requires tail { IsListIn (length machine.old.cells.items) tail }
        ensures made { Makes self.now.kernel (λ l. a_list (list_at (lists_of self.now machine.new) l)) result
            (consed (object_of self.now.kernel (lists_of self.now machine.old) head)
            (list_at (lists_of self.now machine.old) tail)) }
        ensures inside { IfOk result (IsListIn (length machine.new.cells.items)) }
        ensures kept { article_of self.now machine.new ≡ article_of self.now machine.old }
        ensures of { IsOf self.now machine.new }
        ensures stack { machine.new.stack ≡ machine.old.stack }
    {
        let nesting = self
            .list_nesting(machine, &tail)
            .max(1 + self.nesting(machine, &head));
        if nesting > DEPTH_LIMIT {
            return Err(Fault::Nesting);
        }
        let place = machine.cells.len();
        Memory::unless_full(place)?;
        machine.cells.push(Cell {
            head,
            tail,
            nesting,
        })?;
        Ok(List::Cell(place as u32))
    }

    /// The list of these constants.
    pub(crate) fn constants(&self, machine: &mut Machine, names: &[NameId]) -> Result<List, Memory>
        requires of { IsOf self.now machine.old }
        requires names { All (λ n. n < length self.now.kernel.names) names.now }
        ensures made { IfOk result (λ l. list_at (lists_of self.now machine.new) l
            ≡ constants_of (map (name_at self.now.kernel) names.now)) }
        ensures inside { IfOk result (IsListIn (length machine.new.cells.items)) }
        ensures kept { article_of self.now machine.new ≡ article_of self.now machine.old }
        ensures of { IsOf self.now machine.new }
        ensures stack { machine.new.stack ≡ machine.old.stack }
    {
        let mut list = List::Nil;
        let mut rest = names;
        'names: while let Some((name, front)) = rest.split_last() {
            list = match self.cons(machine, Object::Const(*name), list) {
                Ok(longer) => longer,
                Err(fault) => {
                    let Fault::Memory(memory) = fault else {
                        // Constants are no lists, so that the nesting is 1.
                        unreachable!();
                    };
                    return Err(memory);
                }
            };
            rest = front;
        }
        Ok(list)
    }

    /// How deep lists lie in each other in an object.
    fn nesting(&self, machine: &Machine, object: &Object) -> u32
        requires of { IsOf self.now machine.now }
        requires inside { IsIn self.now.kernel (length machine.now.cells.items) object.now }
        ensures nesting { result ≡ nesting (object_of self.now.kernel (lists_of self.now machine.now) object.now) }
        ensures shallow { result ≤ depth_limit }
    {
        match object {
            Object::List(list) => self.list_nesting(machine, list),
            _ => 0,
        }
    }

    /// How deep lists lie in each other in a list.
    fn list_nesting(&self, machine: &Machine, list: &List) -> u32
        requires of { IsOf self.now machine.now }
        requires inside { IsListIn (length machine.now.cells.items) list.now }
        ensures nesting { result ≡ nesting (a_list (list_at (lists_of self.now machine.now) list.now)) }
        ensures shallow { result ≤ depth_limit }
    {
        match list {
            List::Nil => 1,
            List::Cell(cell) => machine.cells[*cell as usize].nesting,
        }
    }

    /// The types of the list at a place.
    pub(crate) fn types_on(
        &self,
        alloc: Global,
        machine: &Machine,
        place: usize,
    ) -> Result<Vec<TypeId>, Fault>
        requires { IsOf self.now machine.now }
        ensures found { Makes self.now.kernel (λ v. map (type_at self.now.kernel) v.items) result
            (types_on place (article_of self.now machine.now).stack) }
        ensures inside { IfOk result (λ v. All (λ i. i < length self.now.kernel.types) v.items) }
    {
        let list = self.list_on(machine, place)?;
        self.each_of(alloc, machine, list)
    }

    /// The terms of the list at a place, and its step.
    pub(crate) fn terms_on(
        &self,
        alloc: Global,
        machine: &Machine,
        place: usize,
    ) -> Result<(Vec<TermId>, StepId), Fault>
        requires { IsOf self.now machine.now }
        ensures found { Makes self.now.kernel (λ p. map (term_at self.now.kernel) p.0.items) result
            (terms_on place (article_of self.now machine.now).stack) }
        ensures origin { IfOk result (λ p. origin_of self.now p.1 ≡ origin_at place (article_of self.now machine.now).stack) }
        ensures inside { IfOk result (λ p. All (λ i. i < length self.now.kernel.terms) p.0.items) }
        ensures step { IfOk result (λ p. p.1 < length self.now.trace) }
    {
        let (list, step) = self.list_entry(machine, place)?;
        Ok((self.each_of(alloc, machine, list)?, step))
    }

    /// The names of the list at a place, and its step.
    pub(crate) fn names_on(
        &self,
        alloc: Global,
        machine: &Machine,
        place: usize,
    ) -> Result<(Vec<NameId>, StepId), Fault>
        requires { IsOf self.now machine.now }
        ensures found { Makes self.now.kernel (λ p. map (name_at self.now.kernel) p.0.items) result
            (names_on place (article_of self.now machine.now).stack) }
        ensures origin { IfOk result (λ p. origin_of self.now p.1 ≡ origin_at place (article_of self.now machine.now).stack) }
        ensures inside { IfOk result (λ p. All (λ i. i < length self.now.kernel.names) p.0.items) }
        ensures step { IfOk result (λ p. p.1 < length self.now.trace) }
    {
        let (list, step) = self.list_entry(machine, place)?;
        Ok((self.each_of(alloc, machine, list)?, step))
    }

    /// The elements of a list, all of one kind.
    pub(crate) fn each_of<E: Element>(
        &self,
        alloc: Global,
        machine: &Machine,
        list: List,
    ) -> Result<Vec<E>, Fault>
        requires of { IsOf self.now machine.now }
        requires inside { IsListIn (length machine.now.cells.items) list }
        ensures found { Makes self.now.kernel (λ v. map (E.value_at self.now.kernel) v.items) result
            (as_each E.as_one (list_at (lists_of self.now machine.now) list)) }
        ensures inside { IfOk result (λ v. All (E.is_inside self.now.kernel) v.items) }
    {
        let mut elements = Vec::new(alloc);
        let mut rest = list;
        'cells: while let List::Cell(place) = rest {
            let cell = &machine.cells[place as usize];
            let element = E::of(cell.head)?;
            elements.push(element)?;
            rest = cell.tail;
        }
        Ok(elements)
    }
}
