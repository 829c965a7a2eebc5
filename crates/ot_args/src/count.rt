ghost use Rattle.std.specs.Prelude.{◌≡◌, nat_lt, get_or};
ghost use Rattle.ot_args.specs.Grammar.{count_of};

/// The greatest number of a sample.
const GREATEST: u64 = 1000;

/// The number of a sample that a word is: 1 to 1,000 in decimal, without sign or leading zero.
pub fn count_of(word: &str) -> Option<u64>
    ensures { result ≡ count_of word.now }
{
    if !begins_above_zero(word) {
        return None;
    }
    match word.parse::<u64>() {
        Ok(count) => (count <= GREATEST).then_some(count),
        Err(_) => None,
    }
}

/// Whether the first byte is above the digit 0, as a number's is that has neither sign nor leading zero.
fn begins_above_zero(word: &str) -> bool
    ensures { result ≡ nat_lt 48 (get_or word.now 0 0) }
{
    match word.as_bytes() {
        [first, ..] => *first > b'0',
        [] => false,
    }
}
