//! What becomes free as a party, or a task, is done.

ghost use Rattle.std.specs.Prelude.{◌≡◌, ◌+◌, ◌-◌, ◌<◌, ◌≤◌, [], ℕ, All, length, count_by, nat_lt, vec_capacity, slice_set};
ghost use Rattle.std.specs.List.{sum_by};
ghost use Rattle.sj_deps.specs.Chains.{is_party, left_of, waits_of};
ghost use Rattle.sj_deps.specs.Counts.{CanSettle, Settles, SameMembers, ListsReady, CountsFit};

use crate::chain::Chain;
use sj_base::few::Few;

/// Counts a party as finished in the chains of its cells, and appends the parties that wait no more. Linear
/// in the cells and in the accesses that are released.
fn settle(chains: &mut Vec<Chain>, waits: &mut Vec<usize>, opened: &mut Vec<usize>, cells: &[usize])
    requires counts { CanSettle chains.old.items waits.old.items cells.now }
    requires room { length opened.old.items + count_by (nat_lt 0) waits.old.items
        ≤ vec_capacity opened.old }
    ensures settled { CanSettle chains.new.items waits.new.items [] }
    ensures chains { Settles chains.old.items chains.new.items cells.now [] }
    ensures answers { ListsReady waits.old.items waits.new.items opened.old.items opened.new.items }
    ensures capacity { vec_capacity opened.old ≤ vec_capacity opened.new }
{
    for cell in cells {
        chains[*cell].finish(waits, opened);
    }
}

/// Counts a task of a party as done, and the party as finished where it was the last one.
fn leave(
    chains: &mut Vec<Chain>,
    waits: &mut Vec<usize>,
    opened: &mut Vec<usize>,
    left: &mut Vec<usize>,
    cells: &[Few<usize>],
    party: usize,
)
    requires fits { CountsFit left.old.items chains.old.items cells.now waits.old.items }
    requires party { party < length left.old.items }
    requires listed { party < length cells.now }
    requires some { 0 < left_of left.old.items party }
    requires free { waits_of waits.old.items party ≡ 0 }
    requires room { length opened.old.items + count_by (nat_lt 0) waits.old.items
        ≤ vec_capacity opened.old }
    ensures fits { CountsFit left.new.items chains.new.items cells.now waits.new.items }
    ensures left { left.new.items
        ≡ slice_set left.old.items party (left_of left.old.items party - 1) }
    ensures chains { SameMembers chains.old.items chains.new.items }
    ensures answers { ListsReady waits.old.items waits.new.items opened.old.items opened.new.items }
    ensures capacity { vec_capacity opened.old ≤ vec_capacity opened.new }
{
    let rest = left[party] - 1;
    left[party] = rest;
    if rest == 0 {
        settle(chains, waits, opened, cells[party].items());
    }
}

/// Counts a task as done in its parties, and appends the parties that wait no more. Linear in the parties,
/// in the cells of those that are finished and in the accesses that are released.
pub fn leave_all(
    chains: &mut Vec<Chain>,
    waits: &mut Vec<usize>,
    opened: &mut Vec<usize>,
    left: &mut Vec<usize>,
    cells: &[Few<usize>],
    parties: &[usize],
)
    requires fits { CountsFit left.old.items chains.old.items cells.now waits.old.items }
    requires known { All (λ n. n < length left.old.items) parties.now }
    requires listed { length cells.now ≡ length left.old.items }
    requires enough { (n : ℕ) → count_by (is_party n) parties.now ≤ left_of left.old.items n }
    requires free { All (λ n. waits_of waits.old.items n ≡ 0) parties.now }
    requires fresh { opened.old.items ≡ [] }
    requires room { length opened.old.items + count_by (nat_lt 0) waits.old.items
        ≤ vec_capacity opened.old }
    ensures fits { CountsFit left.new.items chains.new.items cells.now waits.new.items }
    ensures left { (n : ℕ) → left_of left.new.items n + count_by (is_party n) parties.now
        ≡ left_of left.old.items n }
    ensures len { length left.new.items ≡ length left.old.items }
    ensures chains { SameMembers chains.old.items chains.new.items }
    ensures answers { ListsReady waits.old.items waits.new.items opened.old.items opened.new.items }
    ensures capacity { vec_capacity opened.old ≤ vec_capacity opened.new }
{
    for party in parties {
        leave(chains, waits, opened, left, cells, *party);
    }
}
