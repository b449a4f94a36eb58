//! Want of memory is tied to no cause, so each generator is tried with ample memory.

use sj_apps::paths::paths;
use sj_apps::product::product;
use sj_base::ids::Line;
use sj_base::memory::OutOfMemory;
use sj_meaning::job::{Act, Init};

#[test]
fn the_product_of_two_by_two_takes_eight_tasks(rt: HostRuntime) -> Result<(), OutOfMemory> {
    let job = product(rt.alloc(), 2, 1, 1)?;
    let statements = job.statements.items();
    assert_eq!(rt; statements.len(), 12);
    assert_eq!(rt; statements[0].line, Line(5));
    assert_eq!(rt; statements[11].line, Line(16));
    Ok(())
}

#[test]
fn ways_on_a_ring_of_ninety_six_take_five_steps(rt: HostRuntime) -> Result<(), OutOfMemory> {
    let job = paths(rt.alloc(), 96, 20, 7)?;
    let statements = job.statements.items();
    assert_eq!(rt; statements.len(), 127);
    let Act::Register(Init::Values(values)) = &statements[0].act else {
        panic!(rt; "the matrix has values")
    };
    let weights = values.items();
    assert_eq!(rt; weights.len(), 9216);
    assert_eq!(rt; weights[0], 0);
    assert_eq!(rt; weights[1], 3);
    assert_eq!(rt; weights[2], i64::MAX);
    assert_eq!(rt; weights[7], 7);
    Ok(())
}
