//! The header of a block, which says whose block it is and which version.

ghost use Rattle.std.specs.Prelude.{◌≡◌, ◌+◌, ◌≤◌, length, slice_range};
ghost use Rattle.sj_disk.specs.Block.{header_bytes, word};

use byteorder::{ByteOrder, LittleEndian};

/// What stands in front of a cell's elements on its disk.
#[derive(Clone, Copy, Debug, PartialEq, Eq)]
pub struct Header {
    /// The cell's number.
    pub cell: u64,
    /// Its write count, when it was stored.
    pub writes: u64,
    /// How many elements follow.
    pub length: u64,
}

/// How many bytes a header has: three numbers, each little-endian.
pub const HEADER_BYTES: usize = 24;

/// The number in the eight bytes from `at` on.
fn word_at(bytes: &[u8], at: usize) -> u64
    requires { at + 8 ≤ length bytes.now }
    ensures { word result ≡ slice_range bytes.now at (at + 8) }
{
    LittleEndian::read_u64(&bytes[at..at + 8])
}

impl Header {
    /// Its 24 bytes. Constant time.
    pub fn to_bytes(&self) -> [u8; 24]
        ensures { result ≡ header_bytes self.now }
    {
        let mut bytes = [0u8; HEADER_BYTES];
        LittleEndian::write_u64_into(&[self.cell, self.writes, self.length], &mut bytes);
        bytes
    }

    /// The header with these bytes. Constant time.
    pub fn of_bytes(bytes: &[u8; 24]) -> Header
        ensures { header_bytes result ≡ bytes.now }
    {
        Header {
            cell: word_at(bytes, 0),
            writes: word_at(bytes, 8),
            length: word_at(bytes, 16),
        }
    }
}
