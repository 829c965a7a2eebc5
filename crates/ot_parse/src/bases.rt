//! The shown symbols that have a base name.
ghost use Rattle.std.specs.Prelude.{◌≡◌, ℕ, List, [], None, map, IfOk, OnOk};
ghost use Rattle.std.specs.List.{list_all};
ghost use Rattle.std.specs.Option.{option_map};
ghost use Rattle.ot_logic.specs.Names.{Name as NameValue};
ghost use Rattle.ot_logic.specs.Trees.{Symbol};
ghost use Rattle.ot_forms.specs.Words.{base};
ghost use Rattle.ot_parse.specs.Symbols.{symbol_of};
ghost use Rattle.ot_parse.specs.Bases.{AreBases, holder_of, holder_with, holders_among};
ghost use Rattle.ot_parse.specs.Bases.{is_no_rival, is_sole as sole_test, one_more, held};

use crate::names::base_of;
use crate::notation::{WordKind, is_one_kind, is_shown};
use ot_logic::{Memory, Name};
use std::alloc::Global;
use std::collections::HashMap;

/// The name that the shown symbols of a kind with one base name have, or that there are several such names.
#[derive(Clone, Copy)]
pub(crate) enum Holder<'a> {
    One(&'a Name),
    Several,
}

/// The shown symbols by their kinds and base names.
#[derive(Drop)]
pub(crate) struct Bases<'a> {
    constants: HashMap<&'a [u8], Holder<'a>>,
    types: HashMap<&'a [u8], Holder<'a>>,
}

impl<'a> Bases<'a> {
    /// The symbols among these whose namespaces are shown.
    pub fn of(
        alloc: Global,
        shown: &[Name],
        symbols: &'a [(WordKind, Name)],
    ) -> Result<Bases<'a>, Memory>
        ensures { IfOk result (λ bases. AreBases shown.now (map symbol_of symbols.now) bases) }
    {
        let constants = holders(alloc, shown, WordKind::Con, symbols)?;
        let types = holders(alloc, shown, WordKind::TyOp, symbols)?;
        Ok(Bases { constants, types })
    }

    /// Whether no other shown symbol of this kind has the base name of this one.
    pub fn is_alone(&self, kind: WordKind, name: &Name) -> bool
        ensures { (shown : List NameValue) (symbols : List (Symbol NameValue)) → AreBases shown symbols self.now
            → result ≡ list_all (is_no_rival shown (symbol_of (kind, name.now))) symbols }
    {
        match kind {
            WordKind::Con => is_sole(&self.constants, name),
            WordKind::TyOp => is_sole(&self.types, name),
        }
    }
}

/// Whether no other name has the base name of this one.
fn is_sole(holders: &HashMap<&[u8], Holder<'_>>, name: &Name) -> bool
    ensures { result ≡ sole_test name.now (held holders.now (base name.now)) }
{
    match holders.get(base_of(name)) {
        None => true,
        Some(Holder::One(other)) => *name == **other,
        Some(Holder::Several) => false,
    }
}

/// The shown symbols of a kind by their base names.
fn holders<'a>(
    alloc: Global,
    shown: &[Name],
    kind: WordKind,
    symbols: &'a [(WordKind, Name)],
) -> Result<HashMap<&'a [u8], Holder<'a>>, Memory>
    ensures { IfOk result (λ holders. (text : List ℕ) → held holders text
        ≡ holders_among shown.now (symbol_of (kind, [])) text None (map symbol_of symbols.now)) }
{
    let mut holders = HashMap::new(alloc);
    for symbol in symbols {
        add_holder(shown, kind, symbol, &mut holders)?;
    }
    Ok(holders)
}

/// A symbol more, where it is of this kind and shown.
fn add_holder<'a>(
    shown: &[Name],
    kind: WordKind,
    symbol: &'a (WordKind, Name),
    holders: &mut HashMap<&'a [u8], Holder<'a>>,
) -> Result<(), Memory>
    ensures { OnOk result ((text : List ℕ) → held holders.new text ≡ holder_with shown.now (symbol_of (kind, [])) text
        (held holders.old text) (symbol_of symbol.now)) }
{
    if !is_one_kind(kind, symbol.0) {
        return Ok(());
    }
    if !is_shown(shown, &symbol.1) {
        return Ok(());
    }
    let base = base_of(&symbol.1);
    let holder = with_name(holders.get(base), &symbol.1);
    holders.insert(base, holder)?;
    Ok(())
}

/// What has a base name together with a further name.
fn with_name<'a>(before: Option<&Holder<'a>>, name: &'a Name) -> Holder<'a>
    ensures { holder_of result ≡ one_more (option_map (λ h. holder_of h.now) before.entry) name.now }
{
    match before {
        None => Holder::One(name),
        Some(Holder::One(other)) => {
            if **other == *name {
                Holder::One(name)
            } else {
                Holder::Several
            }
        }
        Some(Holder::Several) => Holder::Several,
    }
}
