ghost use Rattle.std.specs.Prelude.{◌≡◌, length, take, min};

/// Puts the first bytes of `from` at the front of `buf`: at most `most` of them, and as many as fit.
pub(crate) fn copy_front(from: &[u8], most: usize, buf: &mut [u8]) -> usize
    ensures count { result ≡ min (min most (length from.now)) (length buf.old) }
    ensures bytes { take result buf.new ≡ take result from.now }
{
    let n = most.min(from.len()).min(buf.len());
    buf[..n].copy_from_slice(&from[..n]);
    n
}
