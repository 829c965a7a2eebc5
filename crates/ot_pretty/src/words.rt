//! The words of symbols and variables.
ghost use Rattle.std.specs.Prelude.{◌<◌, length};
ghost use Rattle.ot_kernel.specs.State.{name_at};
ghost use Rattle.ot_forms.specs.Words.{dotted, word, variable_word};
ghost use Rattle.ot_parse.specs.Symbols.{symbol_of};
ghost use Rattle.ot_text.specs.Pages.{IsPut, printed};

use ot_kernel::Kernel;
use ot_logic::{Name, NameId};
use ot_parse::{Notation, WordKind, base_of, is_bare};
use ot_text::Page;

/// The word of a symbol: its base name where it is hidden, else its components with dots between where no hidden symbol
/// has that base name, else its spelling.
pub(crate) fn put_symbol(
    page: &mut Page,
    kernel: &Kernel,
    notation: &Notation,
    kind: WordKind,
    name: NameId,
)
    requires { name < length kernel.now.names }
    ensures { IsPut (word notation.now (symbol_of (kind, name_at kernel.now name))) (printed page.old)
        (printed page.new) }
{
    put_word(page, notation, kind, kernel.names().get(name));
}

fn put_word(page: &mut Page, notation: &Notation, kind: WordKind, name: &Name)
    ensures { IsPut (word notation.now (symbol_of (kind, name.now))) (printed page.old) (printed page.new) }
{
    if notation.is_hidden(kind, name) {
        page.put(base_of(name));
        return;
    }
    if notation.is_spelled(kind, name) {
        page.put_name(name);
        return;
    }
    put_dotted(page, name);
}

/// The word of a variable or a type variable: its components with dots between, else its spelling.
pub(crate) fn put_variable(page: &mut Page, kernel: &Kernel, name: NameId)
    requires { name < length kernel.now.names }
    ensures { IsPut (variable_word (name_at kernel.now name)) (printed page.old) (printed page.new) }
{
    put_plain(page, kernel.names().get(name));
}

fn put_plain(page: &mut Page, name: &Name)
    ensures { IsPut (variable_word name.now) (printed page.old) (printed page.new) }
{
    if is_bare(name) {
        put_dotted(page, name);
    } else {
        page.put_name(name);
    }
}

/// The components with a dot between two.
fn put_dotted(page: &mut Page, name: &Name)
    ensures { IsPut (dotted name.now) (printed page.old) (printed page.new) }
{
    let components = name.components();
    let mut is_first = true;
    for component in components {
        page.separate(is_first, b".");
        page.put(component.as_slice());
        is_first = false;
    }
}
