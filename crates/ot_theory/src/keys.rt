ghost use Rattle.std.specs.Prelude.{◌≡◌};
ghost use Rattle.ot_theory.specs.Values.{key_of, is_source};

/// The key of a statement in a block.
#[derive(Clone, Copy)]
pub enum Key {
    Import,
    Article,
    Package,
    Interpret,
    /// Another key, whose statements have no effect.
    Other,
}

/// The key that a text is.
pub fn key_of(text: &[u8]) -> Key
    ensures { result ≡ key_of text.now }
{
    if text == b"import".as_slice() {
        Key::Import
    } else if text == b"article".as_slice() {
        Key::Article
    } else if text == b"package".as_slice() {
        Key::Package
    } else if text == b"interpret".as_slice() {
        Key::Interpret
    } else {
        Key::Other
    }
}

/// Whether a block has at most one statement of these keys.
pub(crate) fn is_source(key: Key) -> bool
    ensures { result ≡ is_source key }
{
    match key {
        Key::Article | Key::Package => true,
        Key::Import | Key::Interpret | Key::Other => false,
    }
}
