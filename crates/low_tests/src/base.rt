//! Want of memory is tied to no cause, so each call that may answer it is tried with ample memory.

use sj_base::ids::{Cell, Node, Task, Worker};
use sj_base::memory::OutOfMemory;
use sj_base::sequence::Sequence;
use sj_base::tile::{Dims, Tile};
use sj_base::trace::{Event, Trace};

#[test]
fn a_tile_of_zeros_is_made_and_copied(rt: HostRuntime) -> Result<(), OutOfMemory> {
    let alloc = rt.alloc();
    let dims = Dims { rows: 2, cols: 3 };
    let mut tile = Tile::zeros(alloc, dims)?;
    assert_eq!(rt; tile.dims(), dims);
    assert_eq!(rt; tile.elements(), [0i64; 6].as_slice());
    if let Some(last) = tile.elements_mut().last_mut() {
        *last = -7;
    }
    let copy = tile.copy(alloc)?;
    assert_eq!(rt; copy.dims(), dims);
    assert_eq!(rt; copy.elements(), [0i64, 0, 0, 0, 0, -7].as_slice());
    Ok(())
}

#[test]
fn a_trace_has_room_for_the_events_that_it_reserves(rt: HostRuntime) -> Result<(), OutOfMemory> {
    let claim = Event::Claim(Task(3), Worker(1));
    let dropped = Event::Drop(Cell(5), Node(0));
    let mut trace = Trace::empty(rt.alloc());
    trace.reserve(1)?;
    trace.add(claim);
    trace.reserve(1)?;
    trace.add(dropped);
    assert_eq!(rt; trace.len(), 2);
    assert_eq!(rt; (trace.get(0), trace.get(1)), (claim, dropped));
    Ok(())
}

#[test]
fn a_sequence_has_the_items_of_its_list(rt: HostRuntime) -> Result<(), OutOfMemory> {
    let tasks = Sequence::of(Vec::from_slice(rt.alloc(), &[Task(4), Task(2)])?);
    assert!(rt; tasks.len() == 2 && !tasks.is_empty());
    assert_eq!(rt; tasks.items(), [Task(4), Task(2)].as_slice());
    assert_eq!(rt;
        tasks.into_items().as_slice(),
        [Task(4), Task(2)].as_slice()
    );
    Ok(())
}
