//! What bytes are read from.

ghost use Rattle.std.specs.Prelude.{◌≡◌, ℕ, List, Option, IsErr, is_err, is_some};
ghost use Rattle.std.specs.Io.{ReadsAtMost};
ghost use Rattle.std.specs.Io.KnownBytes.{ReadConsumes};
ghost use Rattle.sj_edge.specs.Faults.{Counts, counted};

/// A device refused a call, and its count of faults says so.
#[derive(Clone, Copy, Debug, PartialEq, Eq)]
pub struct Failed;

/// A stream of bytes to read, which may tell proofs what is left, and has a count of faults.
///
/// The count rises only in a call that fails, and then by one; it stays once it is `u64::MAX`.
/// Whether a source tells never changes.
pub trait Source {
    // The bytes that are left, where the source tells.
    ghost left: { Self → Option (List ℕ) };

    // How many faults there were.
    ghost faults: { Self → ℕ };

    /// Takes the first bytes that are left into the front of `buf`, and says how many.
    ///
    /// 0 for a `buf` that isn't empty is the end. Takes nothing where it fails.
    fn read(&mut self, buf: &mut [u8]) -> Result<usize, Failed>
        ensures takes_at_most_the_buffer { ReadsAtMost result buf.new }
        ensures gives_the_first_bytes_left_and_takes_them { ReadConsumes (left self.old)
            (left self.new) result buf.new }
        ensures tells_as_before { is_some (left self.new) ≡ is_some (left self.old) }
        ensures failed_only_where_faults_rose { Counts
            (faults self.old) (faults self.new) (IsErr result) }
        ensures faults_rise_by_one_where_it_fails_and_else_stay { faults self.new
            ≡ counted (faults self.old) (is_err result) };
}
