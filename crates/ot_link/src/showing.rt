//! The namespaces that a theory file shows.
ghost use Rattle.std.specs.Prelude.{◌≡◌, ◌++◌, IfOk, OnOk};
ghost use Rattle.ot_theory.specs.Answers.{tag_of, tags_of};
ghost use Rattle.ot_link.specs.Shown.{shown_by, shown_by_all};

use ot_logic::{Memory, Name, NameFault};
use ot_theory::Tag;
use std::alloc::Global;

/// The namespaces that the tags of a theory file show, in their order: a tag `show:` whose value is one quoted name
/// shows the namespace that has all its components. Other values have no effect.
pub fn shown(alloc: Global, tags: &[Tag<'_>]) -> Result<Vec<Name>, Memory>
    ensures { IfOk result (λ names. names.items ≡ shown_by_all (tags_of tags.now)) }
{
    let mut names = Vec::new(alloc);
    for tag in tags {
        add_name(alloc, tag, &mut names)?;
    }
    Ok(names)
}

/// Adds the namespace that a tag shows, if it shows one.
fn add_name(alloc: Global, tag: &Tag<'_>, names: &mut Vec<Name>) -> Result<(), Memory>
    ensures { OnOk result (names.new.items ≡ names.old.items ++ shown_by (tag_of tag.now)) }
{
    if tag.key != b"show".as_slice() {
        return Ok(());
    }
    let Some((b'"', _)) = tag.value.split_first() else {
        return Ok(());
    };
    match Name::read(alloc, tag.value) {
        Ok(name) => {
            names.push(name)?;
            Ok(())
        }
        Err(NameFault::Memory(memory)) => Err(memory),
        Err(NameFault::Unterminated | NameFault::Trailing) => Ok(()),
    }
}
