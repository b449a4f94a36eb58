//! Each codelet once through the set of all of them, which runs those of ring arithmetic by the ring's own set.

ghost use Rattle.std.specs.Prelude.{◌≡◌, [], ◌∷◌, IsTrue, IfOk};
ghost use Rattle.sj_base.specs.Array.{zeros};
ghost use Rattle.sj_codelet.specs.Kernel.{fits_in};
ghost use Rattle.sj_codelet.specs.Frame.{all_dims, own, shared};
ghost use Rattle.sj_codelet.specs.Runs.{IsReadyFor};
ghost use Rattle.sj_minplus.specs.Has.{library_has};

use crate::numbers::same;
use sj_base::memory::OutOfMemory;
use sj_base::mode::Reduction;
use sj_base::program::Codelet;
use sj_base::tile::{Dims, Tile};
use sj_codelet::frame::Frame;
use sj_codelet::kernel::{
    ADD, AXPY, BUTTERFLY, COPY, DELIVER, DOT, FILL, FWCOL, FWDIAG, FWROW, GEMM, GEMM3, INIT_LEAST,
    INIT_PLUS, LOAD, LOADFILL, LOWEST, MINGEMM, PASTE, SCALE, SUM, TRANSPOSE,
};
use sj_codelet::set::Codelets;
use sj_minplus::library::Library;
use sj_minplus::sum::INF;
use std::alloc::Global;
use std::process::Abort;
use std::sync::Arc;

/// Runs a codelet of the library: the last operand's elements are as they should be then.
fn ends_as(
    rt: &impl Abort,
    alloc: Global,
    id: Codelet,
    args: &[i64],
    frame: &mut Frame,
    elements: &[i64],
) -> Result<(), OutOfMemory>
    requires fits { IsTrue (fits_in library_has id args.now (all_dims frame.old.slots)) }
    requires ready { IsReadyFor id frame.old.slots }
{
    Library.run(alloc, id, args, frame)?;
    let n = frame.len();
    assert!(rt; n > 0);
    same(rt, frame.tile(n - 1).elements(), elements);
    Ok(())
}

/// The same of a tile alone.
fn alone(
    rt: &impl Abort,
    alloc: Global,
    id: Codelet,
    args: &[i64],
    x: Tile,
    elements: &[i64],
) -> Result<(), OutOfMemory>
    requires fits { IsTrue (fits_in library_has id args.now (x.dims ∷ [])) }
    requires ready { IsReadyFor id (own x ∷ []) }
{
    let mut frame = Frame::with_room(alloc, 1)?;
    frame.push_own(x);
    ends_as(rt, alloc, id, args, &mut frame, elements)
}

/// The same of a tile beside one that is only read.
fn beside(
    rt: &impl Abort,
    alloc: Global,
    id: Codelet,
    args: &[i64],
    d: Tile,
    x: Tile,
    elements: &[i64],
) -> Result<(), OutOfMemory>
    requires fits { IsTrue (fits_in library_has id args.now (d.dims ∷ x.dims ∷ [])) }
    requires ready { IsReadyFor id (shared d ∷ own x ∷ []) }
{
    let mut frame = Frame::with_room(alloc, 2)?;
    frame.push_shared(Arc::new(alloc, d)?);
    frame.push_own(x);
    ends_as(rt, alloc, id, args, &mut frame, elements)
}

/// The same of a tile beside two that are only read.
fn beside_two(
    rt: &impl Abort,
    alloc: Global,
    id: Codelet,
    a: Tile,
    b: Tile,
    x: Tile,
    elements: &[i64],
) -> Result<(), OutOfMemory>
    requires fits { IsTrue (fits_in library_has id [] (a.dims ∷ b.dims ∷ x.dims ∷ [])) }
    requires ready { IsReadyFor id (shared a ∷ shared b ∷ own x ∷ []) }
{
    let mut frame = Frame::with_room(alloc, 3)?;
    frame.push_shared(Arc::new(alloc, a)?);
    frame.push_shared(Arc::new(alloc, b)?);
    frame.push_own(x);
    ends_as(rt, alloc, id, &[], &mut frame, elements)
}

/// The differences of two tiles that a butterfly changes.
fn differences(
    rt: &impl Abort,
    alloc: Global,
    x: Tile,
    y: Tile,
    elements: &[i64],
) -> Result<(), OutOfMemory>
    requires x { x.dims ≡ record { rows = 1; cols = 2 } }
    requires y { y.dims ≡ record { rows = 1; cols = 2 } }
{
    let mut frame = Frame::with_room(alloc, 2)?;
    frame.push_own(x);
    frame.push_own(y);
    ends_as(rt, alloc, BUTTERFLY, &[], &mut frame, elements)
}

/// The product of three tiles, and what stood there.
fn multiplied_twice(
    rt: &impl Abort,
    alloc: Global,
    a: Tile,
    b: Tile,
    d: Tile,
    c: Tile,
    elements: &[i64],
) -> Result<(), OutOfMemory>
    requires a { a.dims ≡ record { rows = 1; cols = 1 } }
    requires b { b.dims ≡ record { rows = 1; cols = 1 } }
    requires d { d.dims ≡ record { rows = 1; cols = 2 } }
    requires c { c.dims ≡ record { rows = 1; cols = 2 } }
{
    let mut frame = Frame::with_room(alloc, 5)?;
    frame.push_shared(Arc::new(alloc, a)?);
    frame.push_shared(Arc::new(alloc, b)?);
    frame.push_shared(Arc::new(alloc, d)?);
    frame.push_own(Tile::zeros(alloc, Dims { rows: 1, cols: 1 })?);
    frame.push_own(c);
    ends_as(rt, alloc, GEMM3, &[], &mut frame, elements)
}

/// A tile of one row and two columns.
fn pair(alloc: Global, first: i64, second: i64) -> Result<Tile, OutOfMemory>
    ensures { IfOk result (λ t. t.dims ≡ record { rows = 1; cols = 2 }) }
{
    Ok(Tile::of(Dims { rows: 1, cols: 2 }, vec![in alloc; first, second]?))
}

/// A tile of one element.
fn single(alloc: Global, element: i64) -> Result<Tile, OutOfMemory>
    ensures { IfOk result (λ t. t.dims ≡ record { rows = 1; cols = 1 }) }
{
    Ok(Tile::of(Dims { rows: 1, cols: 1 }, vec![in alloc; element]?))
}

/// A tile of two rows and one column.
fn column(alloc: Global, first: i64, second: i64) -> Result<Tile, OutOfMemory>
    ensures { IfOk result (λ t. t.dims ≡ record { rows = 2; cols = 1 }) }
{
    Ok(Tile::of(Dims { rows: 2, cols: 1 }, vec![in alloc; first, second]?))
}

/// Two zeros in a row.
fn zeros(alloc: Global) -> Result<Tile, OutOfMemory>
    ensures { IfOk result (λ t. t ≡ zeros (record { rows = 1; cols = 2 })) }
{
    Tile::zeros(alloc, Dims { rows: 1, cols: 2 })
}

#[test]
fn the_library_runs_each_codelet_of_min_plus(rt: HostRuntime) -> Result<(), OutOfMemory> {
    let alloc = rt.alloc();
    alone(&rt, alloc, INIT_LEAST, &[], zeros(alloc)?, &[INF, INF])?;
    let block = single(alloc, -3)?;
    alone(&rt, alloc, FWDIAG, &[], block, &[-6])?;
    let (x, y) = (pair(alloc, 3, INF)?, pair(alloc, 5, 4)?);
    beside(&rt, alloc, LOWEST, &[], x, y, &[3, 4])?;
    let (d, row) = (single(alloc, -1)?, pair(alloc, 5, INF)?);
    beside(&rt, alloc, FWROW, &[], d, row, &[4, INF])?;
    let (d, block) = (single(alloc, -1)?, single(alloc, 5)?);
    beside(&rt, alloc, FWCOL, &[], d, block, &[4])?;
    let (a, b) = (
        pair(alloc, INF, 9223372036854775800)?,
        column(alloc, 5, 100)?,
    );
    let c = single(alloc, INF)?;
    beside_two(&rt, alloc, MINGEMM, a, b, c, &[INF - 1])?;
    Ok(())
}

#[test]
fn the_library_makes_elements(rt: HostRuntime) -> Result<(), OutOfMemory> {
    let alloc = rt.alloc();
    alone(&rt, alloc, FILL, &[7, 2], zeros(alloc)?, &[7, 9])?;
    alone(&rt, alloc, LOAD, &[5, -6], zeros(alloc)?, &[5, -6])?;
    let place = [100, 10, 1, 2, 5];
    alone(&rt, alloc, LOADFILL, &place, zeros(alloc)?, &[170, 180])?;
    alone(&rt, alloc, INIT_PLUS, &[], zeros(alloc)?, &[0, 0])?;
    Ok(())
}

#[test]
fn the_library_changes_elements(rt: HostRuntime) -> Result<(), OutOfMemory> {
    let alloc = rt.alloc();
    let x = pair(alloc, 4, -5)?;
    alone(&rt, alloc, SCALE, &[3], x, &[12, -15])?;
    let x = pair(alloc, 3, 4)?;
    alone(&rt, alloc, DELIVER, &[], x, &[3, 4])?;
    let (x, y) = (pair(alloc, i64::MAX, 4)?, pair(alloc, 1, -6)?);
    beside(&rt, alloc, ADD, &[], x, y, &[i64::MIN, -2])?;
    let (x, y) = (pair(alloc, 5, 6)?, pair(alloc, 1, 2)?);
    beside(&rt, alloc, AXPY, &[2], x, y, &[11, 14])?;
    let (x, y) = (pair(alloc, 5, 6)?, pair(alloc, 1, 2)?);
    differences(&rt, alloc, x, y, &[4, 4])?;
    Ok(())
}

#[test]
fn the_library_moves_elements(rt: HostRuntime) -> Result<(), OutOfMemory> {
    let alloc = rt.alloc();
    let x = pair(alloc, 5, -6)?;
    beside(&rt, alloc, COPY, &[], x, zeros(alloc)?, &[5, -6])?;
    let x = pair(alloc, 5, -6)?;
    let turned = Tile::zeros(alloc, Dims { rows: 2, cols: 1 })?;
    beside(&rt, alloc, TRANSPOSE, &[], x, turned, &[5, -6])?;
    let (old, new) = (pair(alloc, 5, -6)?, pair(alloc, 1, 2)?);
    beside(&rt, alloc, PASTE, &[0, 0, 0, 1, 1, 1], old, new, &[1, 5])?;
    Ok(())
}

#[test]
fn the_library_multiplies_and_sums(rt: HostRuntime) -> Result<(), OutOfMemory> {
    let alloc = rt.alloc();
    let (a, b) = (single(alloc, 3)?, pair(alloc, 5, 6)?);
    let c = pair(alloc, 1, 2)?;
    beside_two(&rt, alloc, GEMM, a, b, c, &[16, 20])?;
    let (a, b) = (single(alloc, 3)?, single(alloc, 2)?);
    let (d, c) = (pair(alloc, 5, 6)?, pair(alloc, 1, 2)?);
    multiplied_twice(&rt, alloc, a, b, d, c, &[31, 38])?;
    let (x, y) = (pair(alloc, 3, 4)?, pair(alloc, 5, 6)?);
    let s = single(alloc, 1)?;
    beside_two(&rt, alloc, DOT, x, y, s, &[40])?;
    let (x, s) = (pair(alloc, 3, 4)?, single(alloc, 1)?);
    beside(&rt, alloc, SUM, &[], x, s, &[8])?;
    Ok(())
}

#[test]
fn the_library_knows_both_reductions(rt: HostRuntime) {
    assert!(rt; Library.has(Reduction::Plus) && Library.has(Reduction::Least));
    assert!(rt; Library.combine(Reduction::Least) == LOWEST);
    assert!(rt; Library.init(Reduction::Least) == INIT_LEAST);
    assert!(rt; Library.commutes(MINGEMM) && !Library.commutes(FWDIAG));
    assert!(rt; Library.contributes(MINGEMM, Reduction::Least));
    assert!(rt; !Library.contributes(MINGEMM, Reduction::Plus));
    assert!(rt; Library.contributes(SUM, Reduction::Plus));
    assert!(rt; !Library.contributes(ADD, Reduction::Least));
    assert!(rt; Library.named(b"mingemm") == Some(MINGEMM));
    assert!(rt; Library.named(b"init_least").is_none());
}
