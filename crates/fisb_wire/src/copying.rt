//! Copies bytes between slices.
ghost use Rattle.std.specs.Prelude.{◌≡◌, ◌+◌, ◌-◌, ◌<◌, ◌≤◌, min, [], ◌++◌, length, take, drop};

/// Copies as many bytes as both have, but at most so many, and answers how many.
pub(crate) fn copy_front(from: &[u8], to: &mut [u8], most: usize) -> usize
    requires { 0 < most }
    ensures count { result ≡ min most (min (length to.old) (length from.now)) }
    ensures copied { to.new ≡ take result from.now ++ drop result to.old }
    ensures front { from.now ≡ take result to.new ++ drop result from.now }
    ensures end { result ≡ 0 → 0 < length to.new → from.now ≡ [] }
{
    let n = most.min(to.len().min(from.len()));
    to[..n].copy_from_slice(&from[..n]);
    n
}

/// Copies as many bytes as fit into the buffer after the used ones, and answers how many.
pub(crate) fn copy_behind(used: usize, piece: &[u8], buffer: &mut [u8]) -> usize
    requires { used ≤ length buffer.old }
    ensures count { result ≡ min (length piece.now) (length buffer.old - used) }
    ensures copied { take (used + result) buffer.new
        ≡ take used buffer.old ++ take result piece.now }
{
    copy_front(piece, &mut buffer[used..], usize::MAX)
}
