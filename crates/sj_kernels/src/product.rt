//! Matrix products, in panels of rows of the right factor and two rows of the left one at a time.

ghost use Rattle.std.specs.Prelude.{◌≡◌, ◌+◌, ◌*◌, ◌<◌, ◌≤◌, ◌*ℤ◌, ◌+ℤ◌, ◌++◌, drop, length, pos, replicate, EachIndex};
ghost use Rattle.sj_base.specs.Array.{at};
ghost use Rattle.std.specs.Int.{w64};
ghost use Rattle.std.specs.Int.RustNames.{FitsSigned};
ghost use Rattle.sj_codelet.specs.Ring.{wrap};
ghost use Rattle.sj_codelet.specs.Equations.{matrix, gemm, gemm3};
ghost use Rattle.sj_codelet.specs.Listing.{listing};
ghost use Rattle.sj_kernels.specs.Rows.{row_product};
ghost use Rattle.sj_kernels.specs.Panels.{with_terms, with_terms_within, panel_element, column_sum, columns_from, row_within};

use crate::elementwise::axpy;
use crate::scalar::with_product;

/// How many rows of the right factor a panel has.
const PANEL: usize = 32;

/// How many columns of a panel are multiplied at a time.
const TILE_COLUMNS: usize = 64;

/// A panel's elements in so many columns: 16 KiB.
const PACKED: usize = 2048;

/// The sides of a product: m×k by k×n.
#[derive(Clone, Copy)]
struct Sides {
    m: usize,
    k: usize,
    n: usize,
}

/// Neighbouring rows or columns.
#[derive(Clone, Copy)]
struct Span {
    first: usize,
    len: usize,
}

/// The sums of a row in three neighbouring columns.
#[derive(Clone, Copy)]
struct Sums {
    left: i64,
    middle: i64,
    right: i64,
}

/// `C = C + A B`, wrapping, for an m×k, a k×n and an m×n matrix. About `m k n` steps.
pub fn gemm(a: &[i64], b: &[i64], c: &mut [i64], m: u32, k: u32, n: u32)
    requires left { length a.now ≡ m * k }
    requires right { length b.now ≡ k * n }
    requires target { length c.old ≡ m * n }
    ensures { c.new ≡ (gemm (matrix m k a.now) (matrix k n b.now) (matrix m n c.old)).elements }
{
    read_all(c);
    let sides = Sides {
        m: m as usize,
        k: k as usize,
        n: n as usize,
    };
    for p in 0..sides.k.div_ceil(PANEL) {
        let first = p * PANEL;
        let len = (sides.k - first).min(PANEL);
        let rows = Span { first, len };
        let panel = &b[first * sides.n..first * sides.n + len * sides.n];
        add_panel(a, panel, c, sides, rows);
    }
}

/// `C = C + (A B) D`, wrapping, for an m×k, a k×l, an l×n and an m×n matrix. `t` takes `A B`, and any elements
/// are in it afterwards. About `m k l + m l n` steps.
pub fn gemm3(
    a: &[i64],
    b: &[i64],
    d: &[i64],
    t: &mut [i64],
    c: &mut [i64],
    m: u32,
    k: u32,
    l: u32,
    n: u32,
)
    requires first { length a.now ≡ m * k }
    requires second { length b.now ≡ k * l }
    requires third { length d.now ≡ l * n }
    requires scratch { t.old ≡ replicate (m * l) (pos 0) }
    requires target { length c.old ≡ m * n }
    ensures { let target = matrix m n c.old in
        c.new ≡ (gemm3 (matrix m k a.now) (matrix k l b.now) (matrix l n d.now) target).elements }
{
    gemm(a, b, t, m, k, l);
    gemm(t, d, c, m, l, n);
}

/// Adds the product of some columns of A and as many rows of B, the panel. Where the panel is wide and not a single row,
/// its columns are brought together first: rows that lie a power of two apart would push each other out of the cache.
#[inline(never)]
fn add_panel(a: &[i64], panel: &[i64], c: &mut [i64], sides: Sides, rows: Span)
    requires left { length a.now ≡ sides.m * sides.k }
    requires within { rows.first + rows.len ≤ sides.k }
    requires low { rows.len ≤ 32 }
    requires right { length panel.now ≡ rows.len * sides.n }
    requires target { length c.old ≡ sides.m * sides.n }
    ensures { c.new ≡ listing (length c.old) (with_terms sides rows a.now panel.now c.old) }
{
    let n = sides.n;
    if n <= TILE_COLUMNS || rows.len == 1 {
        let all = Span { first: 0, len: n };
        add_tile(a, panel, c, sides, rows, all);
        return;
    }
    let mut packed = [0i64; PACKED];
    for t in 0..n.div_ceil(TILE_COLUMNS) {
        let first = t * TILE_COLUMNS;
        let len = (n - first).min(TILE_COLUMNS);
        let columns = Span { first, len };
        let tile = &mut packed[..rows.len * len];
        pack(panel, n, columns, tile, rows.len);
        add_tile(a, tile, c, sides, rows, columns);
    }
}

/// Copies some columns of a matrix with `n` columns.
fn pack(matrix: &[i64], n: usize, columns: Span, tile: &mut [i64], rows: usize)
    requires whole { length matrix.now ≡ rows * n }
    requires within { columns.first + columns.len ≤ n }
    requires target { length tile.old ≡ rows * columns.len }
    ensures { tile.new ≡ listing (length tile.old) (panel_element n columns matrix.now) }
{
    let w = columns.len;
    for l in 0..rows {
        let start = l * n + columns.first;
        tile[l * w..l * w + w].copy_from_slice(&matrix[start..start + w]);
    }
}

/// Adds to some columns of C the product of some columns of A and the tile, two rows at a time.
fn add_tile(a: &[i64], tile: &[i64], c: &mut [i64], sides: Sides, rows: Span, columns: Span)
    requires left { length a.now ≡ sides.m * sides.k }
    requires within { rows.first + rows.len ≤ sides.k }
    requires right { length tile.now ≡ rows.len * columns.len }
    requires columns_within { columns.first + columns.len ≤ sides.n }
    requires target { length c.old ≡ sides.m * sides.n }
    ensures { c.new ≡ listing (length c.old)
        (with_terms_within columns sides rows a.now tile.now c.old) }
{
    let n = sides.n;
    let from = columns.first;
    let to = from + columns.len;
    for pair in 0..sides.m / 2 {
        let upper = pair * (2 * sides.k) + rows.first;
        let lower = upper + sides.k;
        let start = pair * (2 * n);
        let both = &mut c[start..start + 2 * n];
        add_to_rows(
            &a[upper..upper + rows.len],
            &a[lower..lower + rows.len],
            tile,
            both,
            n,
            columns,
        );
    }
    if sides.m % 2 == 1 {
        let i = sides.m - 1;
        let last = i * sides.k + rows.first;
        let row = &mut c[i * n..i * n + n];
        one_row(&a[last..last + rows.len], tile, &mut row[from..to]);
    }
}

/// Adds to some columns of two rows of C, which follow each other, the products of two rows and the tile.
fn add_to_rows(a: &[i64], e: &[i64], tile: &[i64], c: &mut [i64], n: usize, columns: Span)
    requires as_long { length e.now ≡ length a.now }
    requires two { length c.old ≡ n + n }
    requires within { columns.first + columns.len ≤ n }
    requires right { length tile.now ≡ length a.now * columns.len }
    ensures { c.new ≡ listing n (row_within columns a.now tile.now c.old)
        ++ listing n (row_within columns e.now tile.now (drop n c.old)) }
{
    let from = columns.first;
    let to = from + columns.len;
    let (top, bottom) = c.split_at_mut(n);
    two_rows(a, e, tile, &mut top[from..to], &mut bottom[from..to]);
}

/// `c = c + a B` and `d = d + e B`, wrapping, for rows `a`, `e`, `c` and `d`, in blocks of three columns. It is not inlined,
/// so that the blocks have all registers.
#[inline(never)]
fn two_rows(a: &[i64], e: &[i64], b: &[i64], c: &mut [i64], d: &mut [i64])
    requires as_long { length e.now ≡ length a.now }
    requires as_wide { length d.old ≡ length c.old }
    requires right { length b.now ≡ length a.now * length c.old }
    ensures first { c.new ≡ listing (length c.old) (row_product (length c.old) a.now b.now c.old) }
    ensures second { d.new ≡ listing (length d.old) (row_product (length d.old) e.now b.now d.old) }
{
    let n = c.len();
    for q in 0..n / 3 {
        let j = q * 3;
        block(a, e, b, n, j, &mut c[j..j + 3], &mut d[j..j + 3]);
    }
    let j = n / 3 * 3;
    last_columns(a, e, b, n, j, &mut c[j..n], &mut d[j..n]);
}

/// The same in the columns from `j` on, of which there are fewer than three.
fn last_columns(a: &[i64], e: &[i64], b: &[i64], n: usize, j: usize, c: &mut [i64], d: &mut [i64])
    requires as_long { length e.now ≡ length a.now }
    requires right { length b.now ≡ length a.now * n }
    requires few { length c.old < 3 }
    requires as_wide { length d.old ≡ length c.old }
    requires last { j + length c.old ≡ n }
    ensures first { c.new ≡ listing (length c.old) (columns_from n j a.now b.now c.old) }
    ensures second { d.new ≡ listing (length d.old) (columns_from n j e.now b.now d.old) }
{
    if c.len() == 2 {
        two_columns(a, e, b, n, j, c, d);
    } else if c.len() == 1 {
        c[0] = column(a, b, n, j, c[0]);
        d[0] = column(e, b, n, j, d[0]);
    }
}

/// The same in two columns from `j` on, as a block of three.
fn two_columns(a: &[i64], e: &[i64], b: &[i64], n: usize, j: usize, c: &mut [i64], d: &mut [i64])
    requires as_long { length e.now ≡ length a.now }
    requires right { length b.now ≡ length a.now * n }
    requires within { j + 2 ≤ n }
    requires two { length c.old ≡ 2 }
    requires two_more { length d.old ≡ 2 }
    ensures first { c.new ≡ listing 2 (columns_from n j a.now b.now c.old) }
    ensures second { d.new ≡ listing 2 (columns_from n j e.now b.now d.old) }
{
    let (mut c0, mut c1) = (c[0], c[1]);
    let (mut d0, mut d1) = (d[0], d[1]);
    for l in 0..a.len() {
        let place = l * n + j;
        let (x, y) = (a[l], e[l]);
        c0 = with_product(c0, x, b[place]);
        c1 = with_product(c1, x, b[place + 1]);
        d0 = with_product(d0, y, b[place]);
        d1 = with_product(d1, y, b[place + 1]);
    }
    c.copy_from_slice(&[c0, c1]);
    d.copy_from_slice(&[d0, d1]);
}

/// The same in three columns from `j` on. There are six sums and no more, so that all stay in registers. They begin at the
/// old elements: begun at 0, the compiler makes vectors of them, which are slower. A turn takes two terms: with half as
/// many jumps it matters less where in memory the loop's own one happens to lie.
fn block(a: &[i64], e: &[i64], b: &[i64], n: usize, j: usize, c: &mut [i64], d: &mut [i64])
    requires as_long { length e.now ≡ length a.now }
    requires right { length b.now ≡ length a.now * n }
    requires within { j + 3 ≤ n }
    requires three { length c.old ≡ 3 }
    requires three_more { length d.old ≡ 3 }
    ensures first { c.new ≡ listing 3 (columns_from n j a.now b.now c.old) }
    ensures second { d.new ≡ listing 3 (columns_from n j e.now b.now d.old) }
{
    let mut upper = Sums {
        left: c[0],
        middle: c[1],
        right: c[2],
    };
    let mut lower = Sums {
        left: d[0],
        middle: d[1],
        right: d[2],
    };
    for h in 0..a.len() / 2 {
        let l = h * 2;
        let place = l * n + j;
        upper = with_term(upper, a[l], b, place);
        lower = with_term(lower, e[l], b, place);
        upper = with_term(upper, a[l + 1], b, place + n);
        lower = with_term(lower, e[l + 1], b, place + n);
    }
    if a.len() % 2 == 1 {
        let l = a.len() - 1;
        upper = with_term(upper, a[l], b, l * n + j);
        lower = with_term(lower, e[l], b, l * n + j);
    }
    c.copy_from_slice(&[upper.left, upper.middle, upper.right]);
    d.copy_from_slice(&[lower.left, lower.middle, lower.right]);
}

/// The sums with a term more: `x` times the element at `place` and its two neighbours.
#[inline(always)]
fn with_term(sums: Sums, x: i64, b: &[i64], place: usize) -> Sums
    requires within { place + 2 < length b.now }
    ensures left { result.left ≡ wrap (sums.left +ℤ (x *ℤ at b.now place)) }
    ensures middle { result.middle ≡ wrap (sums.middle +ℤ (x *ℤ at b.now (place + 1))) }
    ensures right { result.right ≡ wrap (sums.right +ℤ (x *ℤ at b.now (place + 2))) }
{
    Sums {
        left: with_product(sums.left, x, b[place]),
        middle: with_product(sums.middle, x, b[place + 1]),
        right: with_product(sums.right, x, b[place + 2]),
    }
}

/// The element in column `j` of `a B`, and `start`, wrapping.
fn column(a: &[i64], b: &[i64], n: usize, j: usize, start: i64) -> i64
    requires right { length b.now ≡ length a.now * n }
    requires within { j < n }
    ensures { result ≡ column_sum n a.now b.now j (length a.now) start }
{
    let mut total = start;
    for l in 0..a.len() {
        total = with_product(total, a[l], b[l * n + j]);
    }
    total
}

/// `c = c + a B`, wrapping, for a row `a` and a row `c`.
fn one_row(a: &[i64], b: &[i64], c: &mut [i64])
    requires { length b.now ≡ length a.now * length c.old }
    ensures { c.new ≡ listing (length c.old) (row_product (length c.old) a.now b.now c.old) }
{
    read_all(c);
    let n = c.len();
    for l in 0..a.len() {
        let row = &b[l * n..l * n + n];
        axpy(a[l], row, c);
    }
}

/// Reads each element, which shows that it is an i64. No code is left of it: a compiler drops the loop.
fn read_all(xs: &[i64])
    ensures { EachIndex xs.now (λ k. FitsSigned w64 (at xs.now k)) }
{
    for x in xs {
        let _in_range = *x;
    }
}
