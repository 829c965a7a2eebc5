//! Changes of the stack and the dictionary of a machine of this session.
ghost use Rattle.std.specs.Prelude.{◌≡◌, ◌<◌, ◌≤◌, ◌↔◌, length, map, IfOk, IsTrue, OnOk, OnErr, vec_len};
ghost use Rattle.std.specs.List.{All};
ghost use Rattle.std.specs.FinMap as dictionaries;
ghost use Rattle.ot_logic.specs.Faults.{NoEntry};
ghost use Rattle.ot_logic.specs.Answers.{some_or};
ghost use Rattle.ot_kernel.specs.State.{name_at};
ghost use Rattle.ot_machine.specs.Meaning.{entry_of, lists_of, article_of, IsOf, IsIn, IsEntryIn, HasStep};
ghost use Rattle.ot_machine.specs.Places.{pushed, replaced, exchanged, dropped};
ghost use Rattle.ot_machine.specs.Answers.{Makes};

use crate::fault::Fault;
use crate::machine::Machine;
use crate::object::{Entry, Object};
use crate::session::Session;
use ot_logic::Memory;
use ot_trace::StepId;

impl Session {
    /// Puts an object on the stack, with its step.
    #[inline(always)]
    pub(crate) fn push(
        &self,
        machine: &mut Machine,
        object: Object,
        step: Option<StepId>,
    ) -> Result<(), Memory>
        requires of { IsOf self.now machine.old }
        requires inside { IsIn self.now.kernel (length machine.old.cells.items) object }
        requires step { HasStep self.now.trace object step }
        ensures ok { OnOk result
            (article_of self.now machine.new
            ≡ (let s = article_of self.now machine.old in
            record s {
              stack = pushed
                  (entry_of self.now (lists_of self.now machine.old) (record { object = object; step = step }))
                  s.stack;
            })) }
        ensures err { OnErr result (article_of self.now machine.new ≡ article_of self.now machine.old) }
        ensures of { IsOf self.now machine.new }
        ensures cells { machine.new.cells ≡ machine.old.cells }
    {
        machine.stack.push(Entry { object, step })?;
        Ok(())
    }

    /// Puts an object with its step in the place of the top ones, of which there is one at least.
    pub(crate) fn replace(
        &self,
        machine: &mut Machine,
        count: usize,
        object: Object,
        step: Option<StepId>,
    )
        requires of { IsOf self.now machine.old }
        requires inside { IsIn self.now.kernel (length machine.old.cells.items) object }
        requires step { HasStep self.now.trace object step }
        requires some { 0 < count }
        requires there { count ≤ vec_len machine.old.stack }
        ensures changed { article_of self.now machine.new
            ≡ (let s = article_of self.now machine.old in
            record s {
              stack = replaced count
                  (entry_of self.now (lists_of self.now machine.old) (record { object = object; step = step })) s.stack;
            }) }
        ensures of { IsOf self.now machine.new }
    {
        let place = machine.stack.len() - count;
        machine.stack[place] = Entry { object, step };
        machine.stack.truncate(place + 1);
    }

    /// Puts entries in the place of the top ones, as many as they are.
    pub(crate) fn exchange(&self, machine: &mut Machine, entries: &[Entry])
        requires of { IsOf self.now machine.old }
        requires inside { All (IsEntryIn self.now (length machine.old.cells.items)) entries.now }
        requires there { length entries.now ≤ vec_len machine.old.stack }
        ensures changed { article_of self.now machine.new
            ≡ (let s = article_of self.now machine.old in
            record s {
              stack = exchanged (length entries.now)
                  (map (entry_of self.now (lists_of self.now machine.old)) entries.now) s.stack;
            }) }
        ensures of { IsOf self.now machine.new }
    {
        let place = machine.stack.len() - entries.len();
        machine.stack[place..].copy_from_slice(entries);
    }

    /// Drops the top ones.
    pub(crate) fn drop_top(&self, machine: &mut Machine, count: usize)
        requires of { IsOf self.now machine.old }
        requires there { count ≤ vec_len machine.old.stack }
        ensures changed { article_of self.now machine.new
            ≡ (let s = article_of self.now machine.old in record s { stack = dropped count s.stack }) }
        ensures of { IsOf self.now machine.new }
    {
        let rest = machine.stack.len() - count;
        machine.stack.truncate(rest);
    }

    /// What is stored under a key.
    #[inline(always)]
    pub(crate) fn stored(&self, machine: &Machine, key: i64) -> Result<Entry, Fault>
        requires { IsOf self.now machine.now }
        ensures found { Makes self.now.kernel (entry_of self.now (lists_of self.now machine.now)) result
            (some_or (NoEntry key) (dictionaries.get (article_of self.now machine.now).dictionary key)) }
        ensures inside { IfOk result (IsEntryIn self.now (length machine.now.cells.items)) }
    {
        // Where the keys of an article come in order from 0 on, an entry stands at its key.
        if let Ok(place) = usize::try_from(key) {
            if let Some((there, entry)) = machine.dictionary.get_index(place) {
                if is_key(there, key) {
                    return Ok(*entry);
                }
            }
        }
        match machine.dictionary.get(&key) {
            Some(entry) => Ok(*entry),
            None => Err(Fault::NoEntry(key)),
        }
    }

    /// Stores an object with its step under a key; a former one is replaced.
    pub(crate) fn store(
        &self,
        machine: &mut Machine,
        key: i64,
        object: Object,
        step: Option<StepId>,
    ) -> Result<(), Memory>
        requires of { IsOf self.now machine.old }
        requires inside { IsIn self.now.kernel (length machine.old.cells.items) object }
        requires step { HasStep self.now.trace object step }
        ensures ok { OnOk result
            (article_of self.now machine.new
            ≡ (let s = article_of self.now machine.old in record s {
              dictionary = dictionaries.insert s.dictionary key
                  (entry_of self.now (lists_of self.now machine.old) (record { object = object; step = step }));
            })) }
        ensures err { OnErr result (article_of self.now machine.new ≡ article_of self.now machine.old) }
        ensures of { IsOf self.now machine.new }
        ensures stack { vec_len machine.new.stack ≡ vec_len machine.old.stack }
    {
        machine.dictionary.insert(key, Entry { object, step })?;
        Ok(())
    }

    /// Removes what is stored under a key.
    pub(crate) fn forget(&self, machine: &mut Machine, key: i64)
        requires { IsOf self.now machine.old }
        ensures changed { article_of self.now machine.new
            ≡ (let s = article_of self.now machine.old in
            record s { dictionary = dictionaries.remove s.dictionary key }) }
        ensures of { IsOf self.now machine.new }
    {
        machine.dictionary.swap_remove(&key);
    }
}

/// Whether a key is this one.
fn is_key(there: &i64, key: i64) -> bool
    ensures { IsTrue result ↔ (there.now ≡ key) }
{
    *there == key
}
