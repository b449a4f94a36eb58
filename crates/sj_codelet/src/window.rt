//! Where a paste takes its elements and puts them.

ghost use Rattle.std.specs.Prelude.{◌≡◌, length};
ghost use Rattle.sj_codelet.specs.Window.{window_of};

/// A window of `rows` rows and `cols` columns: where it stands in an old array, and where in a new one.
#[derive(Clone, Copy, Debug, PartialEq, Eq)]
pub struct Window {
    pub old_row: u64,
    pub old_col: u64,
    pub new_row: u64,
    pub new_col: u64,
    pub rows: u64,
    pub cols: u64,
}

impl Window {
    /// The window that six arguments name. Constant time.
    pub fn of(args: &[i64]) -> Window
        requires { length args.now ≡ 6 }
        ensures { result ≡ window_of args.now }
    {
        Window {
            old_row: args[0].unsigned_abs(),
            old_col: args[1].unsigned_abs(),
            new_row: args[2].unsigned_abs(),
            new_col: args[3].unsigned_abs(),
            rows: args[4].unsigned_abs(),
            cols: args[5].unsigned_abs(),
        }
    }
}
