//! Values that lie behind a turn lock, and what the threads that share one may know of it.

ghost use Rattle.std.specs.Prelude.{ℕ};

/// A value that threads share in turns. It has a key, which no turn changes, a row for each seat,
/// which that seat's turns alone change, and a fact, which holds between any two turns.
pub trait Keyed {
    /// What a key is.
    ghost Key: { Type 0 };

    /// What a row is.
    ghost Row: { Type 0 };

    /// The key of a value.
    ghost key: { Self → Key };

    /// The row of a value for the seat of a number.
    ghost row_of: { Self → ℕ → Row };

    /// What is true of a value between two turns.
    ghost sound: { Self → Type 0 };
}
