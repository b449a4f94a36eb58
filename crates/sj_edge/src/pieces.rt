//! Pieces of a list of bytes: copied out of it, and written over it.

ghost use Rattle.std.specs.Prelude.{◌≡◌, ◌+◌, ◌-◌, ◌<◌, ◌≤◌, ◌++◌, [], length, min, take, drop, slice_range};
ghost use Rattle.sj_edge.specs.Held.{written};

/// Copies the bytes from `at` on into `buf`.
pub fn copy_out(bytes: &[u8], at: usize, buf: &mut [u8])
    requires { at + length buf.old ≤ length bytes.now }
    ensures { buf.new ≡ slice_range bytes.now at (at + length buf.new) }
{
    buf.copy_from_slice(&bytes[at..at + buf.len()]);
}

/// Copies as many of the bytes from `at` on as fit into the front of `buf`, and says how many.
pub fn copy_front(bytes: &[u8], at: usize, buf: &mut [u8]) -> usize
    requires { at ≤ length bytes.now }
    ensures count { result ≡ min (length buf.new) (length bytes.now - at) }
    ensures given { drop at bytes.now ≡ take result buf.new ++ drop (at + result) bytes.now }
    ensures end { result ≡ 0 → 0 < length buf.new → drop (at + result) bytes.now ≡ [] }
{
    let n = buf.len().min(bytes.len() - at);
    copy_out(bytes, at, &mut buf[..n]);
    n
}

/// Puts the piece in place of the bytes from `at` on.
pub fn copy_in(bytes: &mut [u8], at: usize, piece: &[u8])
    requires { at + length piece.now ≤ length bytes.old }
    ensures { bytes.new ≡ written at piece.now bytes.old }
{
    bytes[at..at + piece.len()].copy_from_slice(piece);
}

/// The 24 bytes from `at` on.
pub fn header_at(bytes: &[u8], at: usize) -> [u8; 24]
    requires { at + 24 ≤ length bytes.now }
    ensures { result ≡ slice_range bytes.now at (at + 24) }
{
    let mut found = [0u8; 24];
    copy_out(bytes, at, &mut found);
    found
}
