//! What the answers of generated jobs mean, and of those that a user makes in the same way.

ghost use Rattle.std.specs.Prelude.{◌≡◌, ◌<◌, ◌<ℤ◌, ◌≤ℤ◌, ◌*◌, ℕ, ℤ, List, pos};
ghost use Rattle.sj_base.specs.Window.{table};
ghost use Rattle.sj_codelet.specs.MinPlus.{inf};
ghost use Rattle.sj_meaning.specs.Act.{Statement};
ghost use Rattle.sj_apps.specs.Generated.{IsSize, name_D, paths_statements, square, weight};
ghost use Rattle.sj_apps.specs.Shortest.{acts_of, walk_acts, PrintsShortest};
ghost use Rattle.sj_apps.specs.Walks.{AreWeights, StayBelowInf};

/// A matrix of weights, the steps of all its blocks and a print statement print the lengths of shortest walks, whatever the
/// name, the plan, the lines and the priorities: where no weight is negative, to stay costs nothing, and where a walk leads one
/// does that is shorter than `inf`.
pub fn walks()
    ensures { (name : List ℕ) (n p : ℕ) (W : ℕ → ℕ → ℤ) (xs : List ℤ)
        (ss : List (Statement (List ℕ)))
        → 0 < p → xs ≡ table (square n) W → AreWeights n W → StayBelowInf n W
        → acts_of ss ≡ walk_acts name n p xs → PrintsShortest name n W ss }
{}

/// Where n steps of the greatest weight are shorter than `inf`, a walk leads wherever one does that is shorter than `inf`.
pub fn short_walks()
    ensures { (n m : ℕ) (W : ℕ → ℕ → ℤ)
        → ((i j : ℕ) → i < n → j < n → W i j <ℤ inf → W i j ≤ℤ pos m)
        → pos (n * m) <ℤ inf → StayBelowInf n W }
{}

/// The generated job prints the lengths of shortest walks on the ring with chords, for every size, tile and seed.
pub fn ring_walks()
    ensures { (n tile seed : ℕ) → IsSize n tile seed
        → PrintsShortest name_D n (weight n seed) (paths_statements n tile seed) }
{}
