//! The notation of a run: which symbols are written by their base names.
ghost use Rattle.std.specs.Prelude.{◌≡◌, ◌&&◌, [], true, not, map, List, IfOk, OnOk};
ghost use Rattle.std.specs.Option.{option_map};
ghost use Rattle.std.specs.List.{list_any};
ghost use Rattle.ot_logic.specs.Names.{Name as NameValue, same_name, IsName};
ghost use Rattle.ot_logic.specs.Trees.{Symbol};
ghost use Rattle.ot_forms.specs.Words.{IsNotation, hidden_symbols, is_hidden_in as hidden_test};
ghost use Rattle.ot_forms.specs.Words.{is_short as short_test, namespace, is_hidden as hidden_now};
ghost use Rattle.ot_forms.specs.Words.{is_taken, is_bare as bare_test, dotted, same_symbol};
ghost use Rattle.ot_forms.specs.Reading.{with_base as based, is_spelled as spelled_test, settled, operators};
ghost use Rattle.ot_parse.specs.Bases.{AreBases};
ghost use Rattle.ot_parse.specs.Symbols.{symbol_of, kind_test, with_passing, AreNames};
ghost use Rattle.ot_parse.specs.Symbols.{has_base as has_base_test, operator_base};

use crate::bases::Bases;
use crate::names::{are_same, base_of, is_bare, namespace_of};
use crate::words::{is_operator, is_part, is_same};
use ot_logic::{Memory, Name};
use std::alloc::{AllocError, Global};
use std::marker::Model;

/// What a word may be the word of.
#[derive(Clone, Copy, Debug, PartialEq, Eq)]
pub enum WordKind {
    /// A constant.
    Con,
    /// A type operator.
    TyOp,
}

/// The symbols that are written by their base names, and so the word of each symbol.
#[derive(Drop)]
pub struct Notation {
    hidden: Vec<(WordKind, Name)>,
}

impl Model for Notation {
    ghost use Rattle.std.specs.Prelude.{map, List};
    ghost use Rattle.ot_logic.specs.Names.{Name};
    ghost use Rattle.ot_logic.specs.Trees.{Symbol};
    ghost use Rattle.ot_forms.specs.Words.{IsNotation};
    ghost use Rattle.ot_parse.specs.Symbols.{symbol_of};

    ghost Value = { List (Symbol Name) };

    ghost view = { λ n. map symbol_of n.hidden.items };

    ghost invariant = { λ n. IsNotation (map symbol_of n.hidden.items) };
}

impl Notation {
    /// The notation of a run with these symbols, where these namespaces are shown. A symbol is hidden where its
    /// namespace is shown, its base name may stand alone, and no other symbol of its kind has the same base name and
    /// a shown namespace.
    pub fn new(
        alloc: Global,
        shown: &[Name],
        symbols: &[(WordKind, Name)],
    ) -> Result<Notation, Memory>
        ensures { IfOk result (λ n. n ≡ hidden_symbols shown.now (map symbol_of symbols.now)) }
    {
        are_names(shown);
        let bases = Bases::of(alloc, shown, symbols)?;
        let mut hidden = Vec::new(alloc);
        for symbol in symbols {
            push_hidden(alloc, shown, &bases, symbol, &mut hidden)?;
        }
        Ok(Notation { hidden })
    }

    /// Whether this symbol is hidden: its word is its base name.
    pub fn is_hidden(&self, kind: WordKind, name: &Name) -> bool
        ensures { result ≡ hidden_now self.now (symbol_of (kind, name.now)) }
    {
        has_symbol(self.hidden.as_slice(), kind, name)
    }

    /// The hidden symbol of this kind with this base name.
    pub(crate) fn with_base(&self, kind: WordKind, base: &[u8]) -> Option<&Name>
        ensures { option_map (λ n. n.now) result ≡ based self.now (symbol_of (kind, [])) base.now }
    {
        for symbol in &self.hidden {
            if has_base(kind, base, symbol) {
                return Some(&symbol.1);
            }
        }
        None
    }

    /// Whether the symbol's word is its spelling: it isn't hidden, and it has no bare word or that is the base name
    /// of a hidden symbol of its kind.
    pub fn is_spelled(&self, kind: WordKind, name: &Name) -> bool
        ensures { result ≡ spelled_test self.now (symbol_of (kind, name.now)) }
    {
        !self.is_hidden(kind, name) && !self.is_plain(kind, name)
    }

    /// Whether the symbol's bare word is its own.
    fn is_plain(&self, kind: WordKind, name: &Name) -> bool
        ensures { result
            ≡ (bare_test name.now && not (is_taken self.now (symbol_of (kind, name.now)) (dotted name.now))) }
    {
        is_bare(name) && !self.takes(kind, name)
    }

    /// Whether the bare word is the base name of a hidden symbol of this kind.
    fn takes(&self, kind: WordKind, name: &Name) -> bool
        ensures { bare_test name.now ≡ true → result ≡ is_taken self.now (symbol_of (kind, name.now))
            (dotted name.now) }
    {
        self.sound();
        match name.components() {
            [only] => self.takes_part(kind, only.as_slice()),
            _ => false,
        }
    }

    /// Whether a text is the base name of a hidden symbol of this kind.
    fn takes_part(&self, kind: WordKind, text: &[u8]) -> bool
        ensures { result ≡ is_taken self.now (symbol_of (kind, [])) text.now }
    {
        has_any_base(self.hidden.as_slice(), kind, text)
    }

    /// The name of the symbol whose bare word has these components.
    pub(crate) fn settle(
        &self,
        alloc: Global,
        kind: WordKind,
        name: Name,
    ) -> Result<Name, AllocError>
        ensures { IfOk result (λ n. n ≡ settled self.now (λ m. symbol_of (kind, m)) name) }
    {
        match name.components() {
            [only] => match self.with_base(kind, only.as_slice()) {
                Some(hidden) => hidden.copy(alloc),
                None => Ok(name),
            },
            _ => Ok(name),
        }
    }

    /// The operator words of the hidden constants, each with its constant.
    pub(crate) fn operators(&self, alloc: Global) -> Result<Vec<(&[u8], &Name)>, AllocError>
        ensures { IfOk result (λ v. map (λ c. (c.0.now, c.1.now)) v.items ≡ operators self.now) }
    {
        let mut words = Vec::new(alloc);
        for symbol in &self.hidden {
            if let Some(word) = operator_of(symbol) {
                words.push((word, &symbol.1))?;
            }
        }
        Ok(words)
    }

    /// A law: each hidden symbol has a namespace and a base name that may stand alone, and of one kind no two have
    /// one base name.
    pub fn sound(&self)
        ensures { IsNotation self.now }
    {
        // What holds of each notation.
        let _hidden = &self.hidden;
    }
}

/// Whether the symbol is among these.
fn has_symbol(symbols: &[(WordKind, Name)], kind: WordKind, name: &Name) -> bool
    ensures { result ≡ list_any (λ t. same_symbol (symbol_of (kind, name.now)) (symbol_of t)) symbols.now }
{
    symbols.iter().any(|symbol| is_symbol(kind, name, symbol))
}

/// Whether one of these is of this kind and has this base name.
fn has_any_base(symbols: &[(WordKind, Name)], kind: WordKind, text: &[u8]) -> bool
    ensures { result ≡ list_any (λ t. has_base_test (symbol_of (kind, [])) text.now (symbol_of t)) symbols.now }
{
    symbols.iter().any(|symbol| has_base(kind, text, symbol))
}

/// The operator word of a hidden symbol.
fn operator_of(symbol: &(WordKind, Name)) -> Option<&[u8]>
    ensures { option_map (λ w. w.now) result ≡ operator_base (symbol_of symbol.now) }
{
    match symbol.0 {
        WordKind::TyOp => None,
        WordKind::Con => {
            let base = base_of(&symbol.1);
            if is_operator(base) { Some(base) } else { None }
        }
    }
}

/// Whether this is the symbol.
fn is_symbol(kind: WordKind, name: &Name, symbol: &(WordKind, Name)) -> bool
    ensures { result ≡ same_symbol (symbol_of (kind, name.now)) (symbol_of symbol.now) }
{
    is_one_kind(kind, symbol.0) && *name == symbol.1
}

/// Whether the symbol is of this kind and has this base name.
fn has_base(kind: WordKind, text: &[u8], symbol: &(WordKind, Name)) -> bool
    ensures { result ≡ has_base_test (symbol_of (kind, [])) text.now (symbol_of symbol.now) }
{
    is_one_kind(kind, symbol.0) && is_same(text, base_of(&symbol.1))
}

/// Each of these is a name: it has a component.
fn are_names(names: &[Name])
    ensures { AreNames names.now }
{
    for name in names {
        is_name(name);
    }
}

fn is_name(name: &Name)
    ensures { IsName name.now }
{
    // A name has a component.
    let _components = name.components();
}

/// A symbol more, where it is hidden.
fn push_hidden(
    alloc: Global,
    shown: &[Name],
    bases: &Bases<'_>,
    symbol: &(WordKind, Name),
    hidden: &mut Vec<(WordKind, Name)>,
) -> Result<(), AllocError>
    ensures { OnOk result ((symbols : List (Symbol NameValue)) → AreBases shown.now symbols bases.now
        → map symbol_of hidden.new.items ≡ with_passing (hidden_test shown.now symbols) (symbol_of symbol.now)
        (map symbol_of hidden.old.items)) }
{
    if !is_hidden_in(shown, bases, symbol) {
        return Ok(());
    }
    hidden.push(copy_symbol(alloc, symbol)?)?;
    Ok(())
}

/// A symbol equal to this one.
fn copy_symbol(alloc: Global, symbol: &(WordKind, Name)) -> Result<(WordKind, Name), AllocError>
    ensures { IfOk result (λ copy. copy ≡ symbol.now) }
{
    let name = symbol.1.copy(alloc)?;
    Ok((symbol.0, name))
}

/// Whether the symbol's namespace is among these.
pub(crate) fn is_shown(shown: &[Name], name: &Name) -> bool
    ensures { result ≡ list_any (same_name (namespace name.now)) shown.now }
{
    shown
        .iter()
        .any(|n| are_same(namespace_of(name), n.components()))
}

/// Whether a hidden symbol's base name may be this one's.
fn is_short(kind: WordKind, name: &Name) -> bool
    ensures { result ≡ short_test (symbol_of (kind, name.now)) }
{
    let base = base_of(name);
    is_part(base) || (kind == WordKind::Con && is_operator(base))
}

/// Whether a symbol is hidden among those that these bases are of.
fn is_hidden_in(shown: &[Name], bases: &Bases<'_>, symbol: &(WordKind, Name)) -> bool
    ensures { (symbols : List (Symbol NameValue)) → AreBases shown.now symbols bases.now → result
        ≡ hidden_test shown.now symbols (symbol_of symbol.now) }
{
    if !is_shown(shown, &symbol.1) {
        return false;
    }
    if !is_short(symbol.0, &symbol.1) {
        return false;
    }
    bases.is_alone(symbol.0, &symbol.1)
}

/// Whether two kinds are the same.
pub(crate) fn is_one_kind(left: WordKind, right: WordKind) -> bool
    ensures { result ≡ kind_test left right }
{
    match (left, right) {
        (WordKind::Con, WordKind::Con) => true,
        (WordKind::Con, WordKind::TyOp) => false,
        (WordKind::TyOp, WordKind::Con) => false,
        (WordKind::TyOp, WordKind::TyOp) => true,
    }
}
