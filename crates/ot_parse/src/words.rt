//! Bytes of words.
ghost use Rattle.std.specs.Prelude.{◌≡◌};
ghost use Rattle.std.specs.List.{list_all};
ghost use Rattle.ot_forms.specs.Words.{is_letter as letter_test, is_inner as inner_test, is_sign as sign_test};
ghost use Rattle.ot_forms.specs.Words.{is_part as part_test, is_operator as operator_test, same_text as text_test};

/// A byte of `A` to `Z` or `a` to `z`.
pub(crate) fn is_letter(byte: u8) -> bool
    ensures { result ≡ letter_test byte }
{
    byte.is_ascii_alphabetic()
}

/// A letter, a digit or `_`.
pub(crate) fn is_inner(byte: u8) -> bool
    ensures { result ≡ inner_test byte }
{
    is_letter(byte) || byte.is_ascii_digit() || byte == b'_'
}

/// One of `/ \ = < > ~ & |`.
pub(crate) fn is_sign(byte: u8) -> bool
    ensures { result ≡ sign_test byte }
{
    byte == b'/'
        || byte == b'\\'
        || byte == b'='
        || byte == b'<'
        || byte == b'>'
        || byte == b'~'
        || byte == b'&'
        || byte == b'|'
}

/// Whether two texts are equal.
pub(crate) fn is_same(left: &[u8], right: &[u8]) -> bool
    ensures { result ≡ text_test left.now right.now }
{
    left == right
}

/// A letter, and then letters, digits and `_`.
pub(crate) fn is_part(text: &[u8]) -> bool
    ensures { result ≡ part_test text.now }
{
    match text {
        [first, inner @ ..] => is_letter(*first) && are_inner(inner),
        [] => false,
    }
}

fn are_inner(text: &[u8]) -> bool
    ensures { result ≡ list_all inner_test text.now }
{
    text.iter().all(|byte| is_inner(*byte))
}

/// Whether a text is an operator word: one or more of the bytes `/ \ = < > ~ & |`, but not `=` alone.
pub fn is_operator(text: &[u8]) -> bool
    ensures { result ≡ operator_test text.now }
{
    match text {
        [_, ..] => are_signs(text) && !is_same(text, b"="),
        [] => false,
    }
}

fn are_signs(text: &[u8]) -> bool
    ensures { result ≡ list_all sign_test text.now }
{
    text.iter().all(|byte| is_sign(*byte))
}
