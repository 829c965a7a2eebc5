ghost use Rattle.std.specs.Prelude.{◌≡◌, ◌≤◌, ◌+◌, length, take, IfOk, IfErr, IsOkAnd};
ghost use Rattle.ot_io.specs.Causes.{CountRose};
ghost use Rattle.ot_io.specs.Reading.{HasRead};

use crate::source::{Failed, Source};
use ot_logic::Memory;
use std::alloc::Global;

/// Why the front of a source isn't read.
#[derive(Clone, Copy)]
pub(crate) enum ReadFault {
    /// The source failed.
    Failed,
    Memory(Memory),
}

/// The bytes that a source has left, or its first ones where it has more than `max_bytes`: one more
/// than that. No more are read, whatever the answer is.
///
/// `Failed` comes only where the source failed in this call.
pub(crate) fn read_front<S: Source>(
    alloc: Global,
    source: &mut S,
    max_bytes: usize,
) -> Result<Vec<u8>, ReadFault>
    ensures read { HasRead (S.left source.old) (S.left source.new)
        (IsOkAnd result (λ bytes. length bytes.items ≤ max_bytes))
        (λ left rest. IfOk result (λ bytes. bytes.items ≡ take (max_bytes + 1) left)
        × (length left ≤ length rest + (max_bytes + 1))) }
    ensures cause { IfErr result (λ e. e ≡ ReadFault.Failed
        → CountRose (S.faults source.old) (S.faults source.new)) }
    ensures later { S.faults source.old ≤ S.faults source.new }
    ensures folder { S.folder source.new ≡ S.folder source.old }
    ensures misses { S.misses source.new ≡ S.misses source.old }
    ensures at { S.at source.new ≡ S.at source.old }
{
    let mut bytes = Vec::new(alloc);
    let mut buffer = [0u8; 4096];
    'reading: while bytes.len() <= max_bytes {
        let want = (max_bytes - bytes.len()).min(4095) + 1;
        match source.read(&mut buffer[..want]) {
            Ok(0) => break,
            Ok(count) => {
                if let Err(refused) = bytes.extend_from_slice(&buffer[..count]) {
                    return Err(ReadFault::Memory(Memory::from(refused)));
                }
            }
            Err(Failed) => return Err(ReadFault::Failed),
        }
    }
    Ok(bytes)
}
