//! Worked examples, with answers by hand.

ghost use Rattle.std.specs.Prelude.{◌≡◌};

use sj_base::tile::{Dims, Tile};
use sj_plan::children::{child_holding, children};
use sj_plan::count::count_pastes;
use sj_plan::interval::{Interval, part, parts_overlapping};
use sj_plan::parts::Parts;
use sj_plan::paste::{Paste, pastes};
use sj_plan::rect::Rect;
use sj_plan::tiles::{gather, split};
use std::process::Abort;
use std::test::Fail;

fn parts_are<R: Abort>(rt: &R, items: u32, parts: u32, wanted: &[(u32, u32)]) {
    assert!(rt; wanted.len() == parts as usize);
    for k in 0..parts {
        let (first, len) = wanted[k as usize];
        assert_eq!(rt; part(items, parts, k), Interval { first, len });
    }
}

#[test]
fn the_first_parts_take_the_remainder(rt: HostRuntime) {
    parts_are(&rt, 5, 3, &[(0, 2), (2, 2), (4, 1)]);
    parts_are(&rt, 10, 4, &[(0, 3), (3, 3), (6, 2), (8, 2)]);
    parts_are(&rt, 6, 3, &[(0, 2), (2, 2), (4, 2)]);
    parts_are(&rt, 7, 1, &[(0, 7)]);
    parts_are(&rt, 3, 3, &[(0, 1), (1, 1), (2, 1)]);
    parts_are(&rt, 1, 1, &[(0, 1)]);
    let overlapping = parts_overlapping(10, 4, Interval { first: 5, len: 2 });
    assert_eq!(rt; overlapping, Interval { first: 1, len: 2 });
}

fn rect(row: u32, col: u32, rows: u32, cols: u32) -> Rect
    ensures { result ≡ record { row = row; col = col; rows = rows; cols = cols } }
{
    Rect {
        row,
        col,
        rows,
        cols,
    }
}

#[test]
fn children_stand_row_by_row(rt: HostRuntime) -> Result<(), Fail> {
    let dims = Dims { rows: 5, cols: 3 };
    let parts = Parts { r: 3, c: 2 };
    assert!(rt; parts.fit(dims));
    let uneven = children(rt.alloc(), dims, parts)?;
    let wanted = [
        rect(0, 0, 2, 2),
        rect(0, 2, 2, 1),
        rect(2, 0, 2, 2),
        rect(2, 2, 2, 1),
        rect(4, 0, 1, 2),
        rect(4, 2, 1, 1),
    ];
    assert_eq!(rt; uneven.items(), wanted.as_slice());
    assert_eq!(rt; child_holding(dims, parts, 3, 2), (1, 1));

    let single_rows = Parts { r: 5, c: 1 };
    assert!(rt; single_rows.fit(dims));
    let rows = children(rt.alloc(), dims, single_rows)?;
    let wanted = [
        rect(0, 0, 1, 3),
        rect(1, 0, 1, 3),
        rect(2, 0, 1, 3),
        rect(3, 0, 1, 3),
        rect(4, 0, 1, 3),
    ];
    assert_eq!(rt; rows.items(), wanted.as_slice());

    let whole = Parts { r: 1, c: 1 };
    assert!(rt; whole.fit(dims));
    let one = children(rt.alloc(), dims, whole)?;
    assert_eq!(rt; one.items(), [rect(0, 0, 5, 3)].as_slice());
    Ok(())
}

#[test]
fn a_plan_has_no_empty_part_and_at_most_4096_children(rt: HostRuntime) {
    let dims = Dims {
        rows: 100,
        cols: 64,
    };
    assert!(rt; Parts { r: 64, c: 64 }.fit(dims));
    assert!(rt; !Parts { r: 65, c: 64 }.fit(dims));
    assert!(rt; !Parts { r: 0, c: 1 }.fit(dims));
    assert!(rt; !Parts { r: 1, c: 65 }.fit(dims));
    assert!(rt; Parts { r: 100, c: 1 }.fit(dims));
    assert!(rt; !Parts { r: 101, c: 1 }.fit(dims));
}

#[test]
fn boundaries_that_do_not_meet_give_a_paste_for_each_overlap(rt: HostRuntime) -> Result<(), Fail> {
    // Rows of 3 and 2 become rows of 2, 2 and 1; columns of 2 and 1 become one of 3.
    let dims = Dims { rows: 5, cols: 3 };
    let old = Parts { r: 2, c: 2 };
    let new = Parts { r: 3, c: 1 };
    assert!(rt; old.fit(dims));
    assert!(rt; new.fit(dims));
    let found = pastes(rt.alloc(), dims, old, new)?;
    let paste = |from, to, at_from, at_to, rows, cols| Paste {
        from,
        to,
        at_from,
        at_to,
        rows,
        cols,
    };
    let wanted = [
        paste((0, 0), (0, 0), (0, 0), (0, 0), 2, 2),
        paste((0, 1), (0, 0), (0, 0), (0, 2), 2, 1),
        paste((0, 0), (1, 0), (2, 0), (0, 0), 1, 2),
        paste((0, 1), (1, 0), (2, 0), (0, 2), 1, 1),
        paste((1, 0), (1, 0), (0, 0), (1, 0), 1, 2),
        paste((1, 1), (1, 0), (0, 0), (1, 2), 1, 1),
        paste((1, 0), (2, 0), (1, 0), (0, 0), 1, 2),
        paste((1, 1), (2, 0), (1, 0), (0, 2), 1, 1),
    ];
    assert_eq!(rt; found.items(), wanted.as_slice());
    assert_eq!(rt; count_pastes(dims, old, new), 8);
    let begun = found
        .items()
        .iter()
        .filter(|paste| paste.is_first())
        .count();
    assert_eq!(rt; begun, 3);
    Ok(())
}

#[test]
fn a_rectangle_is_taken_out_and_put_back(rt: HostRuntime) -> Result<(), Fail> {
    let elements = Vec::from_slice(rt.alloc(), &[0, 1, 2, 3, 4, 5, 6, 7, 8, 9, 10, 11])?;
    let mut tile = Tile::of(Dims { rows: 3, cols: 4 }, elements);

    let inner = split(rt.alloc(), &tile, rect(1, 1, 2, 2))?;
    assert_eq!(rt; inner.elements(), [5, 6, 9, 10].as_slice());
    let row = split(rt.alloc(), &tile, rect(2, 0, 1, 4))?;
    assert_eq!(rt; row.elements(), [8, 9, 10, 11].as_slice());
    let column = split(rt.alloc(), &tile, rect(0, 3, 3, 1))?;
    assert_eq!(rt; column.elements(), [3, 7, 11].as_slice());

    let child = Vec::from_slice(rt.alloc(), &[-1, -2, -3, -4])?;
    gather(
        &mut tile,
        rect(1, 1, 2, 2),
        &Tile::of(Dims { rows: 2, cols: 2 }, child),
    );
    assert_eq!(rt;
        tile.elements(),
        [0, 1, 2, 3, 4, -1, -2, 7, 8, -3, -4, 11].as_slice()
    );
    Ok(())
}
