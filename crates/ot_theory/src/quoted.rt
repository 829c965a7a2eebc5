ghost use Rattle.std.specs.Prelude.{◌≡◌, ◌≤◌, length, IfSome};
ghost use Rattle.ot_theory.specs.Interpretations.{quoted_front, quote_len};
ghost use Rattle.ot_theory.specs.Quoting.{pair_value, front_len, IsShorter};

use ot_logic::Name;

/// The most bytes of a quoted name, its quotes counted.
const QUOTED_BYTES: usize = 65535;

/// The quoted name that the text begins with, and the rest.
pub(crate) fn quoted_front(text: &[u8]) -> Option<(&[u8], &[u8])>
    ensures { pair_value result ≡ quoted_front text.now }
{
    let [b'"', inner @ ..] = text else {
        return None;
    };
    let len = quote_len(inner)? + 1;
    let name = &text[..len];
    if len <= QUOTED_BYTES && Name::is_name(name) {
        Some((name, &text[len..]))
    } else {
        None
    }
}

/// What a text begins with, behind a quote.
#[derive(Clone, Copy)]
enum Front<'a> {
    End,
    Quote,
    Escaped(&'a [u8]),
    Byte(&'a [u8]),
}

fn next_front(text: &[u8]) -> Front<'_>
    ensures len { quote_len text.now ≡ front_len result }
    ensures shorter { IsShorter result (length text.now) }
{
    match text {
        [] => Front::End,
        [b'"', ..] => Front::Quote,
        [b'\\', _, after @ ..] => Front::Escaped(after),
        [_, after @ ..] => Front::Byte(after),
    }
}

/// How long the front is that ends at the first quote without a backslash.
#[tactic(auto, using(crate::proofs::Quotes::longer_steps))]
fn quote_len(text: &[u8]) -> Option<usize>
    ensures len { result ≡ quote_len text.now }
    ensures within { IfSome result (λ n. n ≤ length text.now) }
{
    let mut rest = text;
    let mut len = 0;
    'front: loop {
        match next_front(rest) {
            Front::End => return None,
            Front::Quote => return Some(len + 1),
            Front::Escaped(after) => {
                rest = after;
                len += 2;
            }
            Front::Byte(after) => {
                rest = after;
                len += 1;
            }
        }
    }
}
