//! The texts of sequents that were read.
ghost use Rattle.std.specs.Prelude.{◌≡◌, ◌<◌, ◌≤◌, length, map, IfOk, Err};
ghost use Rattle.ot_parse.specs.Plain.{sequent_of};
ghost use Rattle.ot_read.specs.Lines.{sequent_lines};

use ot_parse::{PlainFault, Readable, plain_text};
use std::alloc::Global;

/// The printed texts of sequents, each on a line of its own. `TooLarge` exactly where they have more than `max` bytes.
pub fn sequents_text(
    alloc: Global,
    sequents: &[Readable],
    max: usize,
) -> Result<Vec<u8>, PlainFault>
    ensures ok { IfOk result (λ text. text.items ≡ sequent_lines (map sequent_of sequents.now)) }
    ensures within { IfOk result (λ text. length text.items ≤ max) }
    ensures too_large { result ≡ Err PlainFault.TooLarge → max < length (sequent_lines (map sequent_of sequents.now)) }
{
    let mut text = Vec::new(alloc);
    for sequent in sequents {
        let room = max - text.len();
        plain_text(alloc, sequent, room, &mut text)?;
        if text.len() == max {
            return Err(PlainFault::TooLarge);
        }
        text.push(b'\n')?;
    }
    Ok(text)
}
