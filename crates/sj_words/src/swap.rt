//! The swap disk that the words ask for.

ghost use Rattle.std.specs.Prelude.{◌≡◌, ◌≤◌, ◌^◌, IfOk};
ghost use Rattle.sj_words.specs.Machine.{swap_by};
ghost use Rattle.sj_words.specs.Spelling.{texts};

use crate::options::{WordsRefusal, read_words};
use crate::path::SwapPath;
use sj_base::memory::OutOfMemory;
use std::alloc::Global;

/// The bytes of the swap disk where the words don't give them: 64 MiB.
pub const DEFAULT_SWAP: u64 = 1 << 26;

/// The swap disk that a program is to make: a file where there is a path, and else memory.
#[derive(Debug, Drop)]
pub struct SwapWish {
    pub path: Option<SwapPath>,
    /// Its bytes: at most 2^40.
    pub size: u64,
}

/// The swap disk that the words ask for: 64 MiB of memory where they aren't accepted, or say nothing
/// of it. Linear in the words.
pub fn swap_wish(alloc: Global, words: &[String]) -> Result<SwapWish, OutOfMemory>
    ensures wish { IfOk result (λ wish. wish ≡ swap_by (texts words.now)) }
    ensures limits { IfOk result (λ wish. wish.size ≤ 2 ^ 40) }
{
    match read_words(alloc, words) {
        Ok(options) => Ok(SwapWish {
            path: options.swap,
            size: options.swap_size.unwrap_or(DEFAULT_SWAP),
        }),
        Err(WordsRefusal::Unaccepted) => Ok(SwapWish {
            path: None,
            size: DEFAULT_SWAP,
        }),
        Err(WordsRefusal::OutOfMemory) => Err(OutOfMemory),
    }
}
