//! Worked examples, in which each call that may want memory is seen to succeed.

use sj_base::ids::Cell;
use sj_base::memory::OutOfMemory;
use sj_node::store::NodeStore;

#[test]
fn the_least_recently_used_unpinned_cells_are_victims(rt: HostRuntime) -> Result<(), OutOfMemory> {
    let alloc = rt.alloc();
    let mut node = NodeStore::make(alloc, 100, 8)?;
    node.insert(Cell(0), 30)?;
    node.insert(Cell(1), 20)?;
    node.insert(Cell(2), 40)?;
    node.pin(Cell(0));
    assert_eq!(rt; node.free(), 10);
    let victims = node.victims(alloc, &[], 70)?;
    assert!(rt; victims.is_some_and(|v| v.as_slice() == [Cell(1), Cell(2)].as_slice()));
    node.touch(Cell(1));
    let victims = node.victims(alloc, &[], 25)?;
    assert!(rt; victims.is_some_and(|v| v.as_slice() == [Cell(2)].as_slice()));
    let victims = node.victims(alloc, &[Cell(2)], 25)?;
    assert!(rt; victims.is_some_and(|v| v.as_slice() == [Cell(1)].as_slice()));
    assert!(rt; node.victims(alloc, &[], 71)?.is_none());
    Ok(())
}

#[test]
fn a_claim_replaces_victims_by_its_cells(rt: HostRuntime) -> Result<(), OutOfMemory> {
    let mut node = NodeStore::make(rt.alloc(), 100, 8)?;
    node.insert(Cell(0), 60)?;
    node.insert(Cell(1), 30)?;
    node.hold(10);
    assert_eq!(rt; node.free(), 0);
    node.admit(&[Cell(0)], &[Cell(2), Cell(3)], &[20, 40])?;
    assert!(rt; !node.has(Cell(0)) && node.has(Cell(1)) && node.has(Cell(2)) && node.has(Cell(3)));
    node.pin(Cell(2));
    node.unpin(Cell(2));
    node.remove(Cell(2));
    node.release(10);
    assert_eq!(rt; node.free(), 30);
    let victims = node.victims(rt.alloc(), &[], 100)?;
    assert!(rt; victims.is_some_and(|v| v.as_slice() == [Cell(1), Cell(3)].as_slice()));
    Ok(())
}
