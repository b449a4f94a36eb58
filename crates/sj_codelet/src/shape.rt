//! Tests of dimensions, and of the window that arguments name.

ghost use Rattle.std.specs.Prelude.{◌≡◌, ◌+◌, length, nat_le, pos};
ghost use Rattle.std.specs.List.{list_all};
ghost use Rattle.std.specs.Int.RustNames.{unsigned_abs, int_le};
ghost use Rattle.sj_codelet.specs.Kernel.{same, is_single, is_square, multiply, is_transposed, lies_in, window_fits};

use sj_base::tile::Dims;

pub fn same(d: Dims, e: Dims) -> bool
    ensures { result ≡ same d e }
{
    d.rows == e.rows && d.cols == e.cols
}

pub fn is_single(d: Dims) -> bool
    ensures { result ≡ is_single d }
{
    d.rows == 1 && d.cols == 1
}

pub fn is_square(d: Dims) -> bool
    ensures { result ≡ is_square d }
{
    d.rows == d.cols
}

pub fn multiply(a: Dims, b: Dims, c: Dims) -> bool
    ensures { result ≡ multiply a b c }
{
    a.cols == b.rows && a.rows == c.rows && b.cols == c.cols
}

pub fn is_transposed(d: Dims, e: Dims) -> bool
    ensures { result ≡ is_transposed d e }
{
    d.rows == e.cols && d.cols == e.rows
}

fn is_within(start: u64, len: u64, bound: u32) -> bool
    ensures { result ≡ (nat_le (start + len) bound) }
{
    start as u128 + len as u128 <= bound as u128
}

fn lies_in(row: i64, col: i64, rows: i64, cols: i64, d: Dims) -> bool
    ensures { result ≡ lies_in (unsigned_abs row) (unsigned_abs col) (unsigned_abs rows)
        (unsigned_abs cols) d }
{
    is_within(row.unsigned_abs(), rows.unsigned_abs(), d.rows)
        && is_within(col.unsigned_abs(), cols.unsigned_abs(), d.cols)
}

fn none_negative(args: &[i64]) -> bool
    ensures { result ≡ list_all (int_le (pos 0)) args.now }
{
    args.iter().all(|a| 0 <= *a)
}

pub fn window_fits(args: &[i64], old: Dims, new: Dims) -> bool
    requires { length args.now ≡ 6 }
    ensures { result ≡ window_fits args.now old new }
{
    none_negative(args)
        && lies_in(args[0], args[1], args[4], args[5], old)
        && lies_in(args[2], args[3], args[4], args[5], new)
}
