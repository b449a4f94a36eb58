//! Refused claims, and why.

use crate::scenes::{claims_after_two, claims_of_three, looks_of_two, releases_of_one};
use sj_base::ids::{Cell, Task};
use sj_board::claimable::Claimable;
use sj_board::refusal::ClaimRefusal;
use sj_edge::file_disk::FileDisk;
use sj_machine::plan::Why;
use std::test::Fail;

/// There is no such file, so a disk over it tells nothing and fails each call. No test comes to a transfer.
const NO_FILE: &str = "/dev/null/none";

/// The bytes of that disk.
const DISK: u64 = 1 << 12;

/// Three vectors of 24 bytes, of which the node takes two.
const THREE: &str =
    "starjob 1\nworkers 3\nnode 64\nvector a 3 values 1 2 3\nvector b 3 values 4 5 6\nvector c 3 values 7 8 9\nprint a\n";

#[test]
fn a_claim_finds_no_room_where_claimed_tasks_fill_the_node(rt: HostRuntime) -> Result<(), Fail> {
    let disk = FileDisk::at(&rt, NO_FILE, DISK);
    let (first, second, third) = claims_of_three(rt.alloc(), THREE, disk)?;
    assert_eq!(rt; first, (Task(0), Ok(())));
    assert_eq!(rt; second, (Task(1), Ok(())));
    assert_eq!(rt; third, (Task(2), Err(ClaimRefusal::NotNow(Why::NoRoom))));
    Ok(())
}

/// One vector more: the third claim makes the cell of the first vector leave the node.
const FOUR: &str =
    "starjob 1\nworkers 3\nnode 64\nvector a 3 values 1 2 3\nvector b 3 values 4 5 6\nvector c 3 values 7 8 9\nvector d 3 values 1 1 1\nprint a\n";

#[test]
fn a_claim_waits_while_a_copy_leaves_its_node(rt: HostRuntime) -> Result<(), Fail> {
    let disk = FileDisk::at(&rt, NO_FILE, DISK);
    let (first, second, third, fourth) = claims_after_two(rt.alloc(), FOUR, disk)?;
    assert_eq!(rt; first, Task(0));
    assert_eq!(rt; second, Task(1));
    assert_eq!(rt; third, (Task(2), Ok(())));
    assert_eq!(rt;
        fourth,
        (Task(3), Err(ClaimRefusal::NotNow(Why::Leaving(Cell(0)))))
    );
    Ok(())
}

/// Two tasks commute on a vector, behind the two that fill the vectors.
const COMMUTING: &str =
    "starjob 1\nworkers 2\nvector x 2 values 1 2\nvector y 2 fill 0 0\ntask axpy(1) x:R y:COMMUTE\ntask axpy(10) x:R y:COMMUTE\nprint y\ntask axpy(100) x:R y:COMMUTE\nprint y\n";

#[test]
fn a_claim_waits_while_another_task_holds_its_commuting_cell(rt: HostRuntime) -> Result<(), Fail> {
    let disk = FileDisk::at(&rt, NO_FILE, DISK);
    let (first, second, third, fourth) = claims_after_two(rt.alloc(), COMMUTING, disk)?;
    assert_eq!(rt; first, Task(0));
    assert_eq!(rt; second, Task(1));
    assert_eq!(rt; third, (Task(2), Ok(())));
    assert_eq!(rt;
        fourth,
        (Task(3), Err(ClaimRefusal::NotNow(Why::Commute(Cell(1)))))
    );
    Ok(())
}

/// Four tasks of high priority commute on a vector, and two vectors more are filled, without a priority.
const URGENT: &str =
    "starjob 1\nworkers 2\npolicy prio\nvector x 2 values 1 2\nvector y 2 fill 0 0\nvector a 2 values 3 4\nvector b 2 values 5 6\ntask axpy(1) x:R y:COMMUTE prio=9\ntask axpy(2) x:R y:COMMUTE prio=9\ntask axpy(3) x:R y:COMMUTE prio=9\ntask axpy(4) x:R y:COMMUTE prio=9\nprint y\n";

#[test]
fn a_look_passes_urgent_tasks_that_cannot_be_claimed(rt: HostRuntime) -> Result<(), Fail> {
    let disk = FileDisk::at(&rt, NO_FILE, DISK);
    let (passed, fourth) = looks_of_two(rt.alloc(), URGENT, disk)?;
    assert_eq!(rt; passed, [Task(5), Task(6), Task(7)]);
    assert_eq!(rt; fourth, (Task(2), Ok(())));
    Ok(())
}

/// One vector that is filled, and is printed then.
const ONE: &str = "starjob 1\nworkers 1\nvector x 2 values 1 2\nprint x\n";

#[test]
fn an_end_releases_each_task_once(rt: HostRuntime) -> Result<(), Fail> {
    let disk = FileDisk::at(&rt, NO_FILE, DISK);
    let (first, second, again) = releases_of_one(rt.alloc(), ONE, disk)?;
    assert_eq!(rt; first, Some(Task(1)));
    assert_eq!(rt; second, None);
    assert_eq!(rt; again, Claimable::Stale);
    Ok(())
}
