//! Elements as the bytes that a block keeps of them.

ghost use Rattle.std.specs.Prelude.{◌≡◌, ◌*◌, All, FitsSigned, length};
ghost use Rattle.std.specs.Int.{w64};
ghost use Rattle.sj_disk.specs.Block.{element_bytes};

use byteorder::{ByteOrder, LittleEndian};

/// Writes the bytes of these elements. Linear in them.
pub fn encode(elements: &[i64], bytes: &mut [u8])
    requires { length bytes.old ≡ 8 * length elements.now }
    ensures { bytes.new ≡ element_bytes elements.now }
{
    LittleEndian::write_i64_into(elements, bytes);
}

/// Reads the elements that have these bytes. Linear in them.
pub fn decode(bytes: &[u8], elements: &mut [i64])
    requires { length bytes.now ≡ 8 * length elements.old }
    ensures bytes { element_bytes elements.new ≡ bytes.now }
    ensures in_range { All (FitsSigned w64) elements.new }
{
    LittleEndian::read_i64_into(bytes, elements);
}
