//! The words of the command line: which lists of words are accepted, what they ask for, and the
//! machine that they and a job ask for together.
//!
//! Words are read from the left. Each is one of the flags `--trace` and `--summary`, or an option with
//! its value in the next word or behind its first `=`:
//!
//! | Option | Value | Asks for |
//! |---|---|---|
//! | `--workers` | 1 to 64 | so many workers, in place of the job's |
//! | `--sched` | `eager`, `prio` or `ws` | the scheduling policy, in place of the job's |
//! | `--node` | 8 to 2^40 | memory nodes of so many bytes, in place of the job's |
//! | `--nodes` | 1 to 16 | how many such nodes, where it isn't 1; only with `--node` |
//! | `--swap` | a path | a file as the swap disk |
//! | `--swap-size` | 0 to 2^40 | the bytes of the swap disk, where they aren't 64 MiB |
//! | `--app` | `product` or `paths` | the job that is generated, in place of one that is read |
//! | `--n` | 1 to 2048 | the rows of its matrices |
//! | `--tile` | 1 to n | the rows of its tiles, of which at most 48 make a column |
//! | `--seed` | 0 to 999999999 | its numbers |
//!
//! The last four stand together or not at all. No name stands twice. No value is empty or begins with
//! `-`. A number is 1 to 19 decimal digits. The spelling is checked first, and then `clap` reads the
//! values.
#![tactic(auto)]

mod command;
mod law;
mod machine;
mod options;
mod path;
mod spelling;
mod swap;

pub use law::words_mean_what_is_written;
pub use machine::machine_of;
pub use options::{Options, WordsRefusal, read_words};
pub use path::SwapPath;
pub use swap::{DEFAULT_SWAP, SwapWish, swap_wish};
