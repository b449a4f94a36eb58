//! Worked orders of taking, in which making a pool is seen to succeed.

use sj_base::ids::{Task, Worker};
use sj_base::memory::OutOfMemory;
use sj_base::mode::Policy;
use sj_pool::pool::Pool;

#[test]
fn under_eager_the_oldest_that_fits_is_taken(rt: HostRuntime) -> Result<(), OutOfMemory> {
    let mut pool = Pool::make(rt.alloc(), Policy::Eager, 2, 5)?;
    pool.put(Task(3), 0, 70, Worker(0));
    pool.put(Task(1), 9, 40, Worker(1));
    pool.put(Task(4), 0, 10, Worker(0));
    assert!(rt; pool.take(Worker(0), 50) == Some(Task(1)));
    assert!(rt; pool.take(Worker(0), 9) == None);
    assert!(rt; pool.take(Worker(1), 70) == Some(Task(3)));
    assert!(rt; pool.take(Worker(1), 70) == Some(Task(4)));
    assert!(rt; pool.take(Worker(1), 70) == None);
    Ok(())
}

#[test]
fn under_prio_the_most_urgent_that_fits_is_taken(rt: HostRuntime) -> Result<(), OutOfMemory> {
    let mut pool = Pool::make(rt.alloc(), Policy::Prio, 1, 5)?;
    pool.put(Task(3), -2, 10, Worker(0));
    pool.put(Task(4), 7, 10, Worker(0));
    pool.put(Task(0), 8, 90, Worker(0));
    pool.put(Task(2), 7, 10, Worker(0));
    assert!(rt; pool.take(Worker(0), 50) == Some(Task(2)));
    assert!(rt; pool.take(Worker(0), 50) == Some(Task(4)));
    assert!(rt; pool.take(Worker(0), 50) == Some(Task(3)));
    assert!(rt; pool.take(Worker(0), 90) == Some(Task(0)));
    Ok(())
}

#[test]
fn under_ws_a_worker_takes_its_own_and_then_the_next_ones(
    rt: HostRuntime,
) -> Result<(), OutOfMemory> {
    let mut pool = Pool::make(rt.alloc(), Policy::Ws, 3, 6)?;
    pool.put(Task(0), 0, 10, Worker(0));
    pool.put(Task(1), 0, 10, Worker(1));
    pool.put(Task(2), 0, 90, Worker(2));
    pool.put(Task(3), 0, 10, Worker(1));
    assert!(rt; pool.has_fitting(10));
    assert!(rt; !pool.has_fitting(9));
    assert!(rt; pool.take(Worker(1), 50) == Some(Task(1)));
    pool.put(Task(1), 0, 10, Worker(1));
    assert!(rt; pool.take(Worker(2), 50) == Some(Task(0)));
    assert!(rt; pool.take(Worker(2), 50) == Some(Task(3)));
    assert!(rt; pool.take(Worker(0), 90) == Some(Task(1)));
    assert!(rt; pool.take(Worker(0), 90) == Some(Task(2)));
    Ok(())
}

#[test]
fn order_is_kept_over_many_puts_and_takes(rt: HostRuntime) -> Result<(), OutOfMemory> {
    let mut pool = Pool::make(rt.alloc(), Policy::Prio, 1, 10)?;
    pool.put(Task(0), 1, 10, Worker(0));
    pool.put(Task(1), 2, 10, Worker(0));
    pool.put(Task(2), 3, 10, Worker(0));
    pool.put(Task(3), 4, 10, Worker(0));
    pool.put(Task(4), 5, 90, Worker(0));
    pool.put(Task(5), 6, 10, Worker(0));
    pool.put(Task(6), 6, 10, Worker(0));
    pool.put(Task(7), 0, 10, Worker(0));
    assert!(rt; pool.take(Worker(0), 50) == Some(Task(5)));
    assert!(rt; pool.take(Worker(0), 50) == Some(Task(6)));
    assert!(rt; pool.take(Worker(0), 50) == Some(Task(3)));
    pool.put(Task(3), 2, 10, Worker(0));
    assert!(rt; pool.take(Worker(0), 50) == Some(Task(2)));
    assert!(rt; pool.take(Worker(0), 50) == Some(Task(1)));
    assert!(rt; pool.take(Worker(0), 90) == Some(Task(4)));
    assert!(rt; pool.take(Worker(0), 90) == Some(Task(3)));
    assert!(rt; pool.take(Worker(0), 90) == Some(Task(0)));
    assert!(rt; pool.take(Worker(0), 90) == Some(Task(7)));
    assert!(rt; pool.take(Worker(0), 90) == None);
    Ok(())
}
