ghost use Rattle.std.specs.Prelude.{◌≡◌, ◌≤◌, length};
ghost use Rattle.std.specs.List.{list_all};
ghost use Rattle.ot_theory.specs.Forms.{form, form_value, is_identifier_byte, is_identifier, identifier_len};

use ot_lines::trimmed_front;

/// What a line is.
#[derive(Clone, Copy)]
pub(crate) enum Form<'a> {
    Statement(&'a [u8], &'a [u8]),
    Opening(&'a [u8]),
    Closing,
    Other,
}

/// The form of a trimmed line.
pub(crate) fn form_of(text: &[u8]) -> Form<'_>
    ensures { form_value result ≡ form text.now }
{
    let len = identifier_len(text);
    let word = &text[..len];
    let rest = trimmed_front(&text[len..]);
    if word.is_empty() {
        return if rest == b"}".as_slice() {
            Form::Closing
        } else {
            Form::Other
        };
    }
    match rest {
        [b':', value @ ..] => Form::Statement(word, trimmed_front(value)),
        _ => {
            if rest == b"{".as_slice() {
                Form::Opening(word)
            } else {
                Form::Other
            }
        }
    }
}

/// Whether a text is one ASCII letter, digit, `-` or `_` or more.
pub(crate) fn is_identifier(text: &[u8]) -> bool
    ensures { result ≡ is_identifier text.now }
{
    match text {
        [] => false,
        _ => are_identifier_bytes(text),
    }
}

fn are_identifier_bytes(text: &[u8]) -> bool
    ensures { result ≡ list_all is_identifier_byte text.now }
{
    text.iter().all(|byte| is_identifier_byte(*byte))
}

/// How many bytes of an identifier a text begins with.
fn identifier_len(text: &[u8]) -> usize
    ensures len { result ≡ identifier_len text.now }
    ensures within { result ≤ length text.now }
{
    text.iter()
        .take_while(|byte| is_identifier_byte(**byte))
        .count()
}

fn is_identifier_byte(byte: u8) -> bool
    ensures { result ≡ is_identifier_byte byte }
{
    byte.is_ascii_alphanumeric() || byte == b'-' || byte == b'_'
}
