ghost use Rattle.std.specs.Prelude.{◌≡◌, ◌≤◌, ◌<◌, ◌+◌, ◌-◌, ◌++◌, [], min, length, drop, take};

/// Copies the bytes from `offset` on into the front of `buf`, as many as are left, as it holds, and at
/// most `piece`.
pub fn copy_part(bytes: &[u8], offset: usize, piece: usize, buf: &mut [u8]) -> usize
    requires inside { offset ≤ length bytes.now }
    requires some { 1 ≤ piece }
    ensures count { result ≡ min (length buf.new) (min piece (length bytes.now - offset)) }
    ensures bytes { drop offset bytes.now
        ≡ take result buf.new ++ drop (offset + result) bytes.now }
    ensures end { result ≡ 0 → 0 < length buf.new → drop (offset + result) bytes.now ≡ [] }
{
    let count = buf.len().min(piece).min(bytes.len() - offset);
    buf[..count].copy_from_slice(&bytes[offset..offset + count]);
    count
}
