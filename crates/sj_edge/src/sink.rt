//! What bytes are written to.

ghost use Rattle.std.specs.Prelude.{◌≡◌, ◌<◌, ℕ, List, Option, IsErr, IfOk, is_err, is_some, length};
ghost use Rattle.std.specs.Io.{WritesAtMost};
ghost use Rattle.std.specs.Io.KnownBytes.{WriteAppends};
ghost use Rattle.sj_edge.specs.Faults.{Counts, counted};

use crate::source::Failed;

/// A stream of bytes to write, which may tell proofs what it has taken, and has a count of faults.
///
/// The count rises only in a call that fails, and then by one; it stays once it is `u64::MAX`.
/// Whether a sink tells never changes.
pub trait Sink {
    // The bytes taken so far, where the sink tells.
    ghost taken: { Self → Option (List ℕ) };

    // How many faults there were.
    ghost faults: { Self → ℕ };

    /// Appends the first of these bytes, and says how many: at least one, where there is one.
    ///
    /// Appends nothing where it fails.
    fn write(&mut self, bytes: &[u8]) -> Result<usize, Failed>
        ensures takes_at_most_the_bytes { WritesAtMost result bytes.now }
        ensures takes_at_least_one { 0 < length bytes.now → IfOk result (λ n. 0 < n) }
        ensures appends_the_first_bytes { WriteAppends (taken self.old) (taken self.new) result
            bytes.now }
        ensures tells_as_before { is_some (taken self.new) ≡ is_some (taken self.old) }
        ensures failed_only_where_faults_rose { Counts
            (faults self.old) (faults self.new) (IsErr result) }
        ensures faults_rise_by_one_where_it_fails_and_else_stay { faults self.new
            ≡ counted (faults self.old) (is_err result) };
}
