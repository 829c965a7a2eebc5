ghost use Rattle.std.specs.Prelude.{◌≡◌, ◌<◌, ◌==◌, Some, IfSome, position, length};
ghost use Rattle.std.specs.Str.{is_utf8};
ghost use Rattle.ot_theory.specs.Values.{is_path, is_quoted_rest};

/// Whether a value is a quote, one byte or more of UTF-8 without a quote, and a quote.
pub(crate) fn is_path(text: &[u8]) -> bool
    ensures { result ≡ is_path text.now }
{
    match text {
        [b'"', rest @ ..] => match first_quote(rest) {
            Some(len) => is_quoted_rest(rest, len),
            None => false,
        },
        _ => false,
    }
}

fn is_quoted_rest(rest: &[u8], len: usize) -> bool
    requires { len < length rest.now }
    ensures { result ≡ is_quoted_rest rest.now (Some len) }
{
    len > 0 && len == rest.len() - 1 && is_text(&rest[..len])
}

fn first_quote(text: &[u8]) -> Option<usize>
    ensures place { result ≡ position (λ x. x == 34) text.now }
    ensures within { IfSome result (λ n. n < length text.now) }
{
    text.iter().position(|byte| *byte == b'"')
}

fn is_text(bytes: &[u8]) -> bool
    ensures { result ≡ is_utf8 bytes.now }
{
    match str::from_utf8(bytes) {
        Ok(_) => true,
        Err(_) => false,
    }
}
