//! Places on several disks.

ghost use Rattle.std.specs.Prelude.{◌≡◌};
ghost use Rattle.sj_base.specs.FirstFit.{first_fit};

/// The first disk that has so many bytes beside those taken. Linear in the disks.
pub fn first_fit(sizes: &[u64], taken: &[u64], need: u64) -> Option<usize>
    ensures { result ≡ first_fit sizes.now taken.now need }
{
    sizes.iter().zip(taken).position(|(size, taken)| *taken as u128 + need as u128 <= *size as u128)
}
