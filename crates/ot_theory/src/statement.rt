ghost use Rattle.std.specs.Prelude.{◌≡◌, ◌∷◌, ◌++◌, ◌||◌, [], List, IfOk, OnOk};
ghost use Rattle.std.specs.List.{list_any};
ghost use Rattle.ot_logic.specs.Answers.{unless};
ghost use Rattle.ot_theory.specs.Theory.{TagText, statement_added, statement_allowed};
ghost use Rattle.ot_theory.specs.Theory.{source_allowed, value_allowed, has_source, is_symbol};
ghost use Rattle.ot_theory.specs.Values.{key_of, is_source};
ghost use Rattle.ot_theory.specs.Interpretations.{Symbol, symbol_of};
ghost use Rattle.ot_theory.specs.Answers.{tag_of, tags_of, block_of};
ghost use Rattle.ot_theory.specs.Reading.{HoldsSymbols, has_symbol, AnswersAs, Allows};
ghost use Rattle.ot_theory.specs.declared.fault.TheoryFault.TheVariants.{BadLine};
ghost use Rattle.ot_theory.specs.declared.keys.Key.TheVariants.{Interpret};

use crate::fault::{Refusal, TheoryFault};
use crate::forms::is_identifier;
use crate::interpretation::{quoted_name, split_interpret};
use crate::keys::{Key, is_source, key_of};
use crate::reading::OpenBlock;
use crate::symbols::Symbols;
use crate::theory::Tag;
use crate::values::is_path;
use std::alloc::Global;

/// Adds a statement to the open block.
pub(crate) fn add_statement<'a>(
    alloc: Global,
    current: OpenBlock<'a>,
    tag: Tag<'a>,
) -> Result<OpenBlock<'a>, Refusal>
    requires { HoldsSymbols current.symbols (tags_of current.block.statements.items) }
    ensures statement { AnswersAs (λ b. block_of b.block) result
        (statement_added (block_of current.entry.block) (tag_of tag.entry)) }
    ensures symbols { IfOk result (λ b. HoldsSymbols b.symbols (tags_of b.block.statements.items)) }
{
    let OpenBlock {
        mut block,
        mut symbols,
    } = current;
    check(alloc, &mut symbols, &block.statements, tag)?;
    block.statements.push(tag)?;
    Ok(OpenBlock { block, symbols })
}

/// Checks a statement behind the earlier ones of its block, and adds the symbol that it renames.
fn check(
    alloc: Global,
    symbols: &mut Symbols,
    earlier: &[Tag<'_>],
    tag: Tag<'_>,
) -> Result<(), Refusal>
    requires { HoldsSymbols symbols.old (tags_of earlier.now) }
    ensures allowed { Allows result (statement_allowed (tag_of tag.entry) (tags_of earlier.now)) }
    ensures symbols { OnOk result
        (HoldsSymbols symbols.new (tags_of earlier.now ++ tag_of tag.entry ∷ [])) }
{
    match key_of(tag.key) {
        Key::Import => check_line(is_identifier(tag.value)),
        Key::Article => {
            check_line(is_path(tag.value))?;
            check_source(earlier)
        }
        Key::Package => check_source(earlier),
        Key::Interpret => check_renaming(alloc, symbols, tag.value),
        Key::Other => Ok(()),
    }
}

fn check_line(is_right: bool) -> Result<(), Refusal>
    ensures { Allows result (unless BadLine is_right) }
{
    if is_right {
        Ok(())
    } else {
        Err(Refusal::Fault(TheoryFault::BadLine))
    }
}

/// The block has no source yet.
fn check_source(earlier: &[Tag<'_>]) -> Result<(), Refusal>
    ensures { Allows result (source_allowed (tags_of earlier.now)) }
{
    if has_source(earlier) {
        Err(Refusal::Fault(TheoryFault::TwoSources))
    } else {
        Ok(())
    }
}

#[tactic(auto, using(crate::proofs::Sets::any_map))]
fn has_source(earlier: &[Tag<'_>]) -> bool
    ensures { result ≡ has_source (tags_of earlier.now) }
{
    any_source(earlier)
}

fn any_source(earlier: &[Tag<'_>]) -> bool
    ensures { result ≡ list_any (λ t. is_source (key_of (tag_of t).key)) earlier.now }
{
    earlier.iter().any(|tag| is_source(key_of(tag.key)))
}

/// The value is an interpretation of a symbol that isn't renamed yet; adds it.
fn check_renaming(alloc: Global, symbols: &mut Symbols, value: &[u8]) -> Result<(), Refusal>
    ensures allowed { (earlier : List TagText) → HoldsSymbols symbols.old earlier
        → Allows result (value_allowed Interpret value.now earlier) }
    ensures symbols { OnOk result ((symbol : Symbol) → has_symbol symbols.new symbol
        ≡ (is_symbol symbol (symbol_of value.now) || has_symbol symbols.old symbol)) }
{
    match split_interpret(value) {
        Some((kind, from, _)) => {
            let name = quoted_name(alloc, from)?;
            if symbols.add(kind, name)? {
                Ok(())
            } else {
                Err(Refusal::Fault(TheoryFault::DuplicateInterpret))
            }
        }
        None => Err(Refusal::Fault(TheoryFault::BadInterpret)),
    }
}
