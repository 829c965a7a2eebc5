ghost use Rattle.std.specs.Prelude.{◌↔◌, Some, ◌≡◌, ◌<◌, ℕ, List, [], ◌∷◌, ◌++◌, map, IfOk, IfErr};
ghost use Rattle.std.specs.Prelude.{OnOk, OnErr, ◌≢◌, None, IsErrOf, slice_index, length, is_some};
ghost use Rattle.std.specs.List.{flat_map};
ghost use Rattle.std.specs.Hash as fed;
ghost use Rattle.std.proofs.Common.{rules};
ghost use Rattle.std.specs.Cmp.Rules.{comparing};
ghost use Rattle.ot_logic.specs.Names.{Name as NameValue, same_name, same_name-hashes, IsName, Spells};
ghost use Rattle.ot_logic.specs.Names.{HasShorter, HasNone, AreExclusive, HasAnswer, item_of, item_text};
ghost use Rattle.ot_logic.specs.Names.{further_text, joined, spelled, SpellsPlainly, KeepsFront};
ghost use Rattle.ot_logic.specs.Reading.{read_from, read_part, IsShorter, name_read};
ghost use Rattle.ot_logic.specs.declared.name.NameFault.TheVariants.{Memory};
ghost use Rattle.ot_logic.specs.RanOut.{ran_out};

use crate::memory::Memory;
use std::alloc::{AllocError, AllocFailed, Global};
use std::hash::{Hash, Hasher};
use std::marker::Model;

/// A name: a non-empty list of components, the base name last.
#[derive(Drop)]
pub struct Name {
    pub(crate) components: Vec<Vec<u8>>,
}

impl Model for Name {
    ghost use Rattle.std.specs.Prelude.{map};
    ghost use Rattle.ot_logic.specs.Names.{Name, IsName};
    ghost use Rattle.std.specs.Prelude.{ℕ, List};

    ghost Value = { List (List ℕ) };

    ghost view = { λ n. map (λ c. c.items) n.components.items };

    ghost invariant = { λ n. IsName (map (λ c. c.items) n.components.items) };
}

impl PartialEq for Name {
    ghost eq = { same_name };

    ghost laws = { Prim.search (comparing, rules) };

    fn eq(&self, other: &Name) -> bool {
        self.components == other.components
    }
}

impl Eq for Name {
    ghost laws = { Prim.search (comparing, rules) };
}

impl Hash for Name {
    ghost hash_input = { fed.slice (fed.slice fed.u8) };

    ghost respects_eq = { same_name-hashes };

    fn hash<H: Hasher>(&self, state: &mut H) {
        self.components.hash(state);
    }
}

/// Why a quoted text is no name.
#[derive(Clone, Copy, Debug, PartialEq, Eq)]
pub enum NameFault {
    /// The closing quote is missing.
    Unterminated,
    /// Bytes follow the closing quote.
    Trailing,
    Memory(Memory),
}

impl<T: Drop> From<AllocFailed<T>> for NameFault {
    ghost from_gives = { λ _ e. e ≡ Memory ran_out };

    fn from(refused: AllocFailed<T>) -> NameFault {
        NameFault::Memory(Memory::from(refused))
    }
}

impl Name {
    ghost use Rattle.ot_logic.specs.Reading.{Gives};

    /// The name that a quoted text spells, by the article format's rule for names.
    pub fn read(alloc: Global, quoted: &[u8]) -> Result<Name, NameFault>
        requires { (0 < length quoted.now) × (slice_index quoted.now 0 ≡ 34) }
        ensures ok { IfOk result (λ name. Spells quoted.now name) }
        ensures unterminated { IsErrOf result NameFault.Unterminated → HasNone quoted.now }
        ensures trailing { IsErrOf result NameFault.Trailing → HasShorter quoted.now }
        ensures named { IfOk result IsName }
        ensures found { IfOk result (λ name. name_read quoted.now ≡ Some name) }
        ensures missing { IfErr result (λ e. e ≢ NameFault.Memory ran_out → name_read quoted.now ≡ None) }
    {
        Name::read_after_quote(alloc, &quoted[1..])
    }

    /// A name of one component, with these bytes.
    pub fn of_text(alloc: Global, text: &[u8]) -> Result<Name, AllocError>
        ensures { IfOk result (λ name. name ≡ text.now ∷ []) }
    {
        let mut components = Vec::new(alloc);
        components.push(Vec::from_slice(alloc, text)?)?;
        Ok(Name { components })
    }

    /// The name with these components, the base name last.
    pub fn from_components(components: Vec<Vec<u8>>) -> Name
        requires { 0 < length components.items }
        ensures { result ≡ map (λ c. c.items) components.items }
    {
        Name { components }
    }

    /// A name equal to this one. It fails only where memory runs out.
    pub fn copy(&self, alloc: Global) -> Result<Name, AllocError>
        ensures { IfOk result (λ copy. copy ≡ self.now) }
    {
        let mut components = Vec::new(alloc);
        for component in &self.components {
            components.push(Vec::from_slice(alloc, component.as_slice())?)?;
        }
        Ok(Name { components })
    }

    /// The components, the base name last.
    pub fn components(&self) -> &[Vec<u8>]
        ensures value { map (λ c. c.items) result.now ≡ self.now }
        ensures some { 0 < length result.now }
    {
        &self.components
    }

    /// Whether the text spells a name. No memory is taken.
    #[tactic(auto, using(crate::proofs::Reading::is_done_steps))]
    pub fn is_name(text: &[u8]) -> bool
        ensures { result ≡ is_some (name_read text.now) }
    {
        let Some((b'"', after)) = text.split_first() else {
            return false;
        };
        let mut rest = after;
        'parts: loop {
            match next_part(rest) {
                Part::End => return true,
                Part::Trailing | Part::Unterminated => return false,
                Part::Byte(_, after) | Part::Dot(after) => rest = after,
            }
        }
    }

    /// Appends the spelling of the name: a quote, the components with a dot between two, and a
    /// quote. In a component a backslash stands before each quote, backslash and dot, and nowhere
    /// else. After running out of memory `out` is as it was.
    pub fn spell(&self, out: &mut Vec<u8>) -> Result<(), Memory>
        ensures ok { OnOk result (out.new.items ≡ out.old.items ++ spelled self.now) }
        ensures err { OnErr result (out.new.items ≡ out.old.items) }
    {
        let len = out.len();
        match push_spelling(&self.components, out) {
            Ok(()) => Ok(()),
            Err(refused) => {
                out.truncate(len);
                Err(Memory::from(refused))
            }
        }
    }

    fn read_after_quote(alloc: Global, text: &[u8]) -> Result<Name, NameFault>
        ensures { Gives result (read_from text.now) }
    {
        let mut components = Vec::new(alloc);
        let mut component = Vec::new(alloc);
        let mut rest = text;
        'parts: loop {
            match next_part(rest) {
                Part::End => {
                    components.push(component)?;
                    return Ok(Name { components });
                }
                Part::Trailing => return Err(NameFault::Trailing),
                Part::Unterminated => return Err(NameFault::Unterminated),
                Part::Byte(byte, after) => {
                    component.push(byte)?;
                    rest = after;
                }
                Part::Dot(after) => {
                    components.push(component)?;
                    component = Vec::new(alloc);
                    rest = after;
                }
            }
        }
    }
}

/// What comes next in a quoted text, after its first quote.
enum Part<'a> {
    End,
    Trailing,
    Unterminated,
    Byte(u8, &'a [u8]),
    Dot(&'a [u8]),
}

fn next_part(rest: &[u8]) -> Part<'_>
    ensures reading { read_from rest.now ≡ read_part result }
    ensures shorter { IsShorter result (length rest.now) }
{
    match rest {
        [b'"'] => Part::End,
        [] | [_] => Part::Unterminated,
        [b'"', ..] => Part::Trailing,
        [b'\\', byte, after @ ..] => Part::Byte(*byte, after),
        [b'.', after @ ..] => Part::Dot(after),
        [byte, after @ ..] => Part::Byte(*byte, after),
    }
}

/// A law: a text spells the name that is read from it, and no other.
pub fn one_name()
    ensures { (text : List ℕ) (name : NameValue) → Spells text name ↔ (name_read text ≡ Some name) }
{}

/// A law: a text that begins with a quote spells a name, or a shorter front of it does, or no front
/// does, and no two of these hold. So each answer of `Name::read` but running out of memory comes exactly
/// where its clause says.
pub fn one_answer()
    ensures some { (text : List ℕ) → HasAnswer (34 ∷ text) }
    ensures only { (text : List ℕ) → AreExclusive text }
{}

/// A law: a name's spelling spells it, no other text does so without a needless backslash, and no
/// other name has it.
pub fn one_spelling()
    ensures plain { (name : NameValue) → IsName name → SpellsPlainly (spelled name) name }
    ensures one { (text : List ℕ) (name : NameValue) →
        SpellsPlainly text name → text ≡ spelled name }
    ensures apart { (a b : NameValue) → IsName a → IsName b → spelled a ≡ spelled b → a ≡ b }
{}

/// Appends the spelling of a name with these components. After running out of memory some front of it may
/// be added.
fn push_spelling(components: &[Vec<u8>], out: &mut Vec<u8>) -> Result<(), AllocError>
    ensures ok { OnOk result (out.new.items
        ≡ out.old.items ++ spelled (map (λ c. c.items) components.now)) }
    ensures err { OnErr result (KeepsFront out.old.items out.new.items) }
{
    out.push(b'"')?;
    push_components(components, out)?;
    out.push(b'"')?;
    Ok(())
}

/// Appends the components with a dot between two.
fn push_components(components: &[Vec<u8>], out: &mut Vec<u8>) -> Result<(), AllocError>
    ensures ok { OnOk result (out.new.items
        ≡ out.old.items ++ joined (map (map item_of) (map (λ c. c.items) components.now))) }
    ensures err { OnErr result (KeepsFront out.old.items out.new.items) }
{
    match components {
        [] => Ok(()),
        [first, rest @ ..] => {
            push_component(first, out)?;
            push_further(rest, out)
        }
    }
}

/// Appends each component behind a dot.
fn push_further(components: &[Vec<u8>], out: &mut Vec<u8>) -> Result<(), AllocError>
    ensures ok { OnOk result (out.new.items
        ≡ out.old.items ++ flat_map further_text (map (λ c. c.items) components.now)) }
    ensures err { OnErr result (KeepsFront out.old.items out.new.items) }
{
    for component in components {
        out.push(b'.')?;
        push_component(component, out)?;
    }
    Ok(())
}

/// Appends the bytes of a component, with backslashes where they are needed.
fn push_component(component: &[u8], out: &mut Vec<u8>) -> Result<(), AllocError>
    ensures ok { OnOk result (out.new.items
        ≡ out.old.items ++ flat_map item_text (map item_of component.now)) }
    ensures err { OnErr result (KeepsFront out.old.items out.new.items) }
{
    for byte in component {
        if matches!(byte, b'"' | b'\\' | b'.') {
            out.push(b'\\')?;
        }
        out.push(*byte)?;
    }
    Ok(())
}
