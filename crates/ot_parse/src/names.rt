//! Names by their components.
ghost use Rattle.std.specs.Prelude.{◌≡◌, map};
ghost use Rattle.std.specs.List.{list_all};
ghost use Rattle.ot_logic.specs.Names.{same_name};
ghost use Rattle.ot_forms.specs.Words.{base, namespace, is_part as part_test, is_bare as bare_test};

use crate::words::is_part;
use ot_logic::Name;

/// The base name: the last component, without quotes.
pub fn base_of(name: &Name) -> &[u8]
    ensures { result.now ≡ base name.now }
{
    let components = name.components();
    components[components.len() - 1].as_slice()
}

/// All components but the last.
pub(crate) fn namespace_of(name: &Name) -> &[Vec<u8>]
    ensures { map (λ c. c.items) result.now ≡ namespace name.now }
{
    let components = name.components();
    &components[..components.len() - 1]
}

/// Whether two lists of components are equal.
pub(crate) fn are_same(left: &[Vec<u8>], right: &[Vec<u8>]) -> bool
    ensures { result ≡ same_name (map (λ c. c.items) left.now) (map (λ c. c.items) right.now) }
{
    left == right
}

/// Whether a name has a bare word: each component is a letter, followed by letters, digits and `_`.
pub fn is_bare(name: &Name) -> bool
    ensures { result ≡ bare_test name.now }
{
    are_parts(name.components())
}

fn are_parts(components: &[Vec<u8>]) -> bool
    ensures { result ≡ list_all (λ c. part_test c.items) components.now }
{
    components
        .iter()
        .all(|component| is_part(component.as_slice()))
}
