//! Tiles that a board has let go, taken again.

ghost use Rattle.std.specs.Prelude.{◌^◌, ◌≤◌};
ghost use Rattle.sj_base.specs.Array.{area};

use sj_base::memory::OutOfMemory;
use sj_base::tile::{Dims, Tile};
use sj_board::spent::Spent;
use std::alloc::Global;
use std::sync::Arc;
use std::test::Fail;

const ROW: Dims = Dims { rows: 1, cols: 3 };

const COLUMN: Dims = Dims { rows: 3, cols: 1 };

fn share(alloc: Global, dims: Dims) -> Result<Arc<Tile>, OutOfMemory>
    requires { area dims ≤ 2 ^ 24 }
{
    Ok(Arc::new(alloc, Tile::zeros(alloc, dims)?)?)
}

#[test]
fn a_tile_is_taken_by_its_dimensions_where_nobody_shares_it(rt: HostRuntime) -> Result<(), Fail> {
    let alloc = rt.alloc();
    let row = share(alloc, ROW)?;
    let mut spent = Spent::roomy(alloc);
    spent.put(Some(share(alloc, COLUMN)?));
    spent.put(Some(row.clone()?));
    assert!(rt; spent.take_tile(ROW).is_none());
    assert!(rt; spent.take_tile(COLUMN).is_some());
    assert!(rt; spent.take_tile(COLUMN).is_none());
    assert_eq!(rt; row.dims(), ROW);
    Ok(())
}
