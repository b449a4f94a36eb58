//! Intervals of indices, and how items are split into parts, one after another.

ghost use Rattle.std.specs.Prelude.{◌≡◌, ◌+◌, ◌*◌, ◌/◌, ◌%◌, ◌^◌, ◌<◌, ◌≤◌, ◌↔◌, ℕ, min};
ghost use Rattle.sj_plan.specs.Interval.{Lies, part, overlap};

/// `len` indices in a row, from `first` on.
#[derive(Clone, Copy, Debug, PartialEq, Eq)]
pub struct Interval {
    pub first: u32,
    pub len: u32,
}

impl Interval {
    /// What it shares with another interval; of no length where they have no index in common.
    /// Constant time.
    pub fn overlap(self, other: Interval) -> Interval
        requires own_end { self.first + self.len < 2 ^ 32 }
        requires other_end { other.first + other.len < 2 ^ 32 }
        ensures shared { result ≡ overlap self other }
        ensures both { (x : ℕ) → (Lies x result ↔ (Lies x self × Lies x other)) }
    {
        let first = self.first.max(other.first);
        let end = (self.first + self.len).min(other.first + other.len);
        Interval {
            first,
            len: end.saturating_sub(first),
        }
    }
}

/// Part `k` of `items` items that are split into `parts` parts: the first `items % parts` parts
/// have one item more than the others. Constant time.
pub fn part(items: u32, parts: u32, k: u32) -> Interval
    requires { k < parts }
    ensures part { result ≡ part items parts k }
    ensures closed_form { result.first ≡ k * (items / parts) + min k (items % parts) }
    ensures inside { result.first + result.len ≤ items }
    ensures not_empty { parts ≤ items → 0 < result.len }
{
    let shorter = items / parts;
    let longer = items % parts;
    let len = if k < longer { shorter + 1 } else { shorter };
    Interval {
        first: k * shorter + k.min(longer),
        len,
    }
}

/// The part that holds item `x`, of `items` items that are split into `parts` parts.
/// Constant time.
pub fn part_holding(items: u32, parts: u32, x: u32) -> u32
    requires some_parts { 0 < parts }
    requires in_items { x < items }
    ensures in_parts { result < parts }
    ensures holds { Lies x (part items parts result) }
    ensures alone { (k : ℕ) → k < parts → Lies x (part items parts k) → k ≡ result }
{
    let shorter = (items / parts) as u64;
    let longer = (items % parts) as u64;
    let covered = longer * (shorter + 1);
    let x = x as u64;
    if x < covered {
        return (x / (shorter + 1)) as u32;
    }
    (longer + (x - covered) / shorter) as u32
}

/// The numbers of the parts that share an index with an interval, of `items` items that are split
/// into `parts` parts. Constant time.
pub fn parts_overlapping(items: u32, parts: u32, of: Interval) -> Interval
    requires some_parts { 0 < parts }
    requires none_empty { parts ≤ items }
    requires not_empty { 0 < of.len }
    requires inside { of.first + of.len ≤ items }
    ensures in_parts { result.first + result.len ≤ parts }
    ensures exactly { (k : ℕ) → k < parts →
        (Lies k result ↔ (0 < (overlap (part items parts k) of).len)) }
{
    let first = part_holding(items, parts, of.first);
    let last = part_holding(items, parts, of.first + (of.len - 1));
    Interval {
        first,
        len: last + 1 - first,
    }
}
