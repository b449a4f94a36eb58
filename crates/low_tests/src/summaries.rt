//! Worked lines.

use sj_apps::summary::summary;
use sj_base::tile::{Dims, Tile};
use std::alloc::{AllocError, Global};
use std::process::Abort;
use std::test::Fail;

const INF: i64 = i64::MAX;

fn is_summed(
    rt: &impl Abort,
    alloc: Global,
    (rows, cols): (u32, u32),
    elements: &[i64],
    line: &str,
) -> Result<bool, AllocError> {
    let elements = Vec::from_slice(alloc, elements)?;
    let dims = Dims { rows, cols };
    assert!(rt; elements.len() as u64 == dims.area());
    let tile = Tile::of(dims, elements);
    Ok(summary(alloc, b"D", &tile).is_ok_and(|found| found.as_slice() == line.as_bytes()))
}

#[test]
fn elements_that_are_inf_count_alone(rt: HostRuntime) -> Result<(), Fail> {
    let alloc = rt.alloc();
    assert!(rt; is_summed(&rt, alloc, (1, 1), &[0], "D 1 1: sum 0 min 0 max 0 inf 0\n")?);
    assert!(rt;
        is_summed(
            &rt,
            alloc,
            (2, 2),
            &[7, 1, 19, 5],
            "D 2 2: sum 32 min 1 max 19 inf 0\n"
        )?
    );
    assert!(rt;
        is_summed(
            &rt,
            alloc,
            (1, 3),
            &[-5, INF, -7],
            "D 1 3: sum -12 min -7 max -5 inf 1\n"
        )?
    );
    assert!(rt;
        is_summed(
            &rt,
            alloc,
            (3, 1),
            &[INF, INF, 4],
            "D 3 1: sum 4 min 4 max 4 inf 2\n"
        )?
    );
    Ok(())
}

#[test]
fn without_a_number_there_are_no_bounds(rt: HostRuntime) -> Result<(), Fail> {
    let alloc = rt.alloc();
    assert!(rt;
        is_summed(
            &rt,
            alloc,
            (1, 2),
            &[INF, INF],
            "D 1 2: sum 0 min - max - inf 2\n"
        )?
    );
    Ok(())
}

#[test]
fn sums_wrap(rt: HostRuntime) -> Result<(), Fail> {
    let alloc = rt.alloc();
    let line = "D 1 2: sum -9223372036854775808 min 2 max 9223372036854775806 inf 0\n";
    assert!(rt; is_summed(&rt, alloc, (1, 2), &[INF - 1, 2], line)?);
    let line = "D 1 2: sum 9223372036854775807 min -9223372036854775808 max -1 inf 0\n";
    assert!(rt; is_summed(&rt, alloc, (1, 2), &[i64::MIN, -1], line)?);
    Ok(())
}

/// The ring of 96 vertices with chords of 7: the length of a shortest way by m forward steps is m + 2 * (m mod 7), so those of a
/// row sum to 5,126, all to 492,096, and the greatest is 95 + 8.
#[test]
fn the_lengths_of_a_ring_are_summed(rt: HostRuntime) -> Result<(), Fail> {
    let alloc = rt.alloc();
    let mut elements = Vec::new(alloc);
    for i in 0..96i64 {
        for j in 0..96i64 {
            let m = j.wrapping_sub(i).rem_euclid(96);
            elements.push(m + 2 * (m % 7))?;
        }
    }
    let line = "D 96 96: sum 492096 min 0 max 103 inf 0\n";
    assert!(rt; is_summed(&rt, alloc, (96, 96), &elements, line)?);
    Ok(())
}
