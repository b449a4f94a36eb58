//! The row of a cell through claims, transfers, a run and an end.

use sj_base::ids::{Node, Worker};
use sj_base::memory::OutOfMemory;
use sj_replica::mark::Mark;
use sj_replica::replica::Replica;

#[test]
fn a_written_cell_is_evicted_and_fetched_again(rt: HostRuntime) -> Result<(), OutOfMemory> {
    let (near, far, w) = (Node(0), Node(3), Worker(0));
    let mut cell = Replica::none(rt.alloc(), 4)?;
    assert_eq!(rt; cell.first_node(), None);
    cell.set_mark(near, Mark::Coming(w));
    assert!(rt; cell.first_node().is_none() && !cell.is_elsewhere(far));
    cell.own(near);
    cell.count_write();
    assert!(rt; cell.writes() == 1 && cell.first_node() == Some(near) && !cell.is_elsewhere(near));
    cell.set_mark(near, Mark::Leaving(w));
    assert!(rt; cell.mark(near).is_there() && cell.is_elsewhere(far));
    cell.store();
    assert!(rt; cell.is_on_disk() && cell.is_elsewhere(near));
    cell.set_mark(near, Mark::Invalid);
    assert_eq!(rt; cell.first_node(), None);
    cell.set_mark(far, Mark::Coming(w));
    cell.set_mark(far, Mark::Valid);
    assert!(rt;
        cell.first_node() == Some(far) && cell.is_elsewhere(near) && cell.is_elsewhere(far)
    );
    Ok(())
}

#[test]
fn a_run_takes_the_other_copies_away(rt: HostRuntime) -> Result<(), OutOfMemory> {
    let mut cell = Replica::none(rt.alloc(), 12)?;
    cell.set_mark(Node(2), Mark::Valid);
    cell.set_mark(Node(11), Mark::Valid);
    cell.store();
    assert_eq!(rt; cell.first_node(), Some(Node(2)));
    cell.own(Node(11));
    assert_eq!(rt; cell.mark(Node(2)), Mark::Invalid);
    assert!(rt; !cell.is_on_disk() && !cell.is_elsewhere(Node(11)));
    assert_eq!(rt; cell.first_node(), Some(Node(11)));
    Ok(())
}
