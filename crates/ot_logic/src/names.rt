ghost use Rattle.std.specs.Prelude.{◌≡◌, ℕ, ◌<◌, ◌≤◌, Some, slice_get, length, List, [], ◌∷◌, IfOk, OnErr};
ghost use Rattle.ot_logic.specs.Names.{Name as NameValue};
ghost use Rattle.ot_logic.specs.Naming.{first_names, IsNameTable};
ghost use Rattle.ot_logic.specs.Table.{Extends};

use crate::memory::Memory;
use crate::name::Name;
use indexmap::IndexSet;
use std::alloc::Global;
use std::marker::Model;

/// The number of a name in its table.
#[derive(Clone, Copy, Debug, PartialEq, Eq, PartialOrd, Ord, Hash)]
pub struct NameId(u32);

impl Model for NameId {
    ghost use Rattle.std.specs.Prelude.{ℕ};

    ghost Value = { ℕ };

    ghost view = { λ n. n.0 };

    ghost inverse = { λ n. record { 0 = n } };
}

impl NameId {
    /// The number of `->` in each table.
    pub const ARROW: NameId = NameId(0);

    /// The number of `bool`.
    pub const BOOL: NameId = NameId(1);

    /// The number of `=`.
    pub const EQUALS: NameId = NameId(2);

    /// The number of `a`.
    pub const A: NameId = NameId(3);

    /// The number of `r`.
    pub const R: NameId = NameId(4);

    /// The five names that have fixed numbers, in the order of these numbers.
    pub fn fixed() -> [NameId; 5]
        ensures { result ≡ 0 ∷ 1 ∷ 2 ∷ 3 ∷ 4 ∷ [] }
    {
        [
            NameId::ARROW,
            NameId::BOOL,
            NameId::EQUALS,
            NameId::A,
            NameId::R,
        ]
    }
}

/// Names, each with a number that it keeps.
#[derive(Drop)]
pub struct Names {
    entries: IndexSet<Name>,
    // Where the search for a new name goes on.
    next: u64,
}

impl Model for Names {
    ghost use Rattle.std.specs.Prelude.{ℕ, List};
    ghost use Rattle.ot_logic.specs.Names.{same_name};
    ghost use Rattle.ot_logic.specs.Naming.{IsNameTable};
    ghost use Rattle.indexmap.specs.IndexSet.{IsUnique};

    ghost Value = { List (List (List ℕ)) };

    ghost view = { λ t. t.entries.keys };

    ghost invariant = { λ t. IsUnique same_name t.entries × IsNameTable t.entries.keys };
}

impl Names {
    /// The table of the five names that have fixed numbers.
    pub fn new(alloc: Global) -> Result<Names, Memory>
        ensures { IfOk result (λ names. names ≡ first_names) }
    {
        let mut entries = IndexSet::new(alloc);
        entries.insert(Name::of_text(alloc, b"->")?)?;
        entries.insert(Name::of_text(alloc, b"bool")?)?;
        entries.insert(Name::of_text(alloc, b"=")?)?;
        entries.insert(Name::of_text(alloc, b"a")?)?;
        entries.insert(Name::of_text(alloc, b"r")?)?;
        Ok(Names { entries, next: 0 })
    }

    /// The number of a name. A new name takes the next number; after running out of memory the table is as before.
    pub fn intern(&mut self, name: Name) -> Result<NameId, Memory>
        ensures ok { IfOk result (λ id. slice_get self.new id ≡ Some name) }
        ensures extends { Extends self.old self.new }
        ensures table { IsNameTable self.new }
        ensures err { OnErr result (self.new ≡ self.old) }
    {
        // A name has a component.
        let _components = &name.components;
        Memory::unless_full(self.entries.len())?;
        let (index, _) = self.entries.insert_full(name)?;
        Ok(NameId(index as u32))
    }

    /// The number of a name that the table did not have. Which name it is, is open. Names that were tried once are not tried
    /// again. After running out of memory the table may hold more names.
    pub fn add_new(&mut self) -> Result<NameId, Memory>
        ensures ok { IfOk result (λ id. (length self.old ≤ id) × (id < length self.new)) }
        ensures extends { Extends self.old self.new }
        ensures table { IsNameTable self.new }
    {
        let alloc = *self.entries.allocator();
        let count = self.count();
        let mut number = self.next;
        'numbers: loop {
            let text = format!(in alloc; "x{number}")?;
            let id = self.intern(Name::of_text(alloc, text.as_bytes())?)?;
            number = Memory::next(number)?;
            if id.0 as usize >= count {
                self.next = number;
                return Ok(id);
            }
        }
    }

    /// How many names there are.
    pub fn count(&self) -> usize
        ensures count { result ≡ length self.now }
        ensures table { IsNameTable self.now }
    {
        self.entries.len()
    }

    /// The name of a number.
    pub fn get(&self, id: NameId) -> &Name
        requires { id < length self.now }
        ensures name { slice_get self.now id ≡ Some result.now }
        ensures table { IsNameTable self.now }
    {
        &self.entries[id.0 as usize]
    }
}
