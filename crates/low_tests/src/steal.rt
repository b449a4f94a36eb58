//! What comes out of a shared pool is what went in, in one thread and in several.

ghost use Rattle.std.specs.Prelude.{◌≡◌, ◌≢◌, ◌<◌, All, IfSome};
ghost use Rattle.sj_base.specs.declared.mode.Policy.TheVariants.{Prio};
ghost use Rattle.sj_steal.specs.Facts.{AreAllPasses};

use sj_base::ids::Task;
use sj_base::memory::OutOfMemory;
use sj_base::mode::Policy;
use sj_steal::shared::{Empty, Pass, Shared};
use std::alloc::Global;
use std::process::Abort;
use std::sync::Wait;
use std::sync::atomic::AtomicU64;
use std::sync::atomic::Ordering::SeqCst;
use std::thread;
use std::thread::Threads;

// Two of the passes.
fn two_of(shared: &Shared, mut passes: Vec<Pass>) -> Option<(Pass, Pass)>
    requires { All (λ p. p.shared ≡ shared.now) passes.items }
    ensures { IfSome result (λ r. (r.0.shared ≡ shared.now) × (r.1.shared ≡ shared.now)) }
{
    let second = passes.pop()?;
    let first = passes.pop()?;
    Some((first, second))
}

// A task that the first of two workers has put is found by the second, and then nothing by either.
fn pass_on<R: Wait + Abort>(rt: &R, alloc: Global, policy: Policy) -> Result<(), OutOfMemory>
    requires { policy ≢ Prio }
{
    let (shared, passes) = Shared::make(alloc, policy, 2)?;
    let Some((mut first, mut second)) = two_of(&shared, passes) else {
        panic!(rt; "fewer than two passes")
    };
    shared.put(rt, &mut first, Task(7))?;
    assert!(rt; shared.take(rt, &mut second) == Ok(Task(7)));
    assert!(rt; shared.take(rt, &mut first) == Err(Empty));
    assert!(rt; shared.take(rt, &mut second) == Err(Empty));
    Ok(())
}

#[test]
fn what_the_first_puts_the_second_takes(rt: HostRuntime) -> Result<(), OutOfMemory> {
    pass_on(&rt, rt.alloc(), Policy::Eager)?;
    pass_on(&rt, rt.alloc(), Policy::Ws)
}

#[test]
fn the_oldest_is_taken_first(rt: HostRuntime) -> Result<(), OutOfMemory> {
    let (shared, passes) = Shared::make(rt.alloc(), Policy::Eager, 2)?;
    let Some((mut first, mut second)) = two_of(&shared, passes) else {
        panic!(rt; "fewer than two passes")
    };
    shared.put(&rt, &mut second, Task(3))?;
    shared.put(&rt, &mut first, Task(1))?;
    shared.put(&rt, &mut first, Task(3))?;
    assert!(rt; shared.take(&rt, &mut first) == Ok(Task(3)));
    assert!(rt; shared.take(&rt, &mut first) == Ok(Task(1)));
    assert!(rt; shared.take(&rt, &mut second) == Ok(Task(3)));
    assert!(rt; shared.take(&rt, &mut second) == Err(Empty));
    Ok(())
}

#[test]
fn a_workers_own_tasks_come_before_those_of_others(rt: HostRuntime) -> Result<(), OutOfMemory> {
    let (shared, passes) = Shared::make(rt.alloc(), Policy::Ws, 2)?;
    let Some((mut first, mut second)) = two_of(&shared, passes) else {
        panic!(rt; "fewer than two passes")
    };
    shared.put(&rt, &mut second, Task(3))?;
    shared.put(&rt, &mut first, Task(1))?;
    shared.put(&rt, &mut first, Task(2))?;
    assert!(rt; shared.take(&rt, &mut first) == Ok(Task(1)));
    assert!(rt; shared.take(&rt, &mut second) == Ok(Task(3)));
    assert!(rt; shared.take(&rt, &mut second) == Ok(Task(2)));
    assert!(rt; shared.take(&rt, &mut first) == Err(Empty));
    Ok(())
}

// Puts each task below the count, where the worker puts any, and after every second one tries to take one. How often it took one
// is added up.
fn put_and_take<R: Wait + Abort>(
    rt: &R,
    shared: &Shared,
    pass: &mut Pass,
    count: u32,
    puts: bool,
    takes: &AtomicU64,
)
    requires { pass.old.shared ≡ shared.now }
    ensures of { pass.new.shared ≡ shared.now }
    ensures number { pass.new.number ≡ pass.old.number }
{
    for t in 0..count {
        if puts {
            assert!(rt; shared.put(rt, pass, Task(t)).is_ok());
        }
        if t % 2 == 1 && shared.take(rt, pass).is_ok() {
            takes.fetch_add(1, SeqCst);
        }
    }
}

// Each worker does so in a thread of its own, and the first one alone puts.
fn take_in_threads<R: Threads + Wait + Abort + Sync>(
    rt: &R,
    shared: &Shared,
    passes: &mut [Pass],
    count: u32,
    takes: &AtomicU64,
)
    requires { AreAllPasses shared.now passes.old }
    ensures { AreAllPasses shared.now passes.new }
{
    let threads = passes.len().max(1);
    thread::for_each_mut(
        rt,
        passes,
        threads,
        &|k, pass| { put_and_take(rt, shared, pass, count, k == 0, takes) },
    );
}

// What is left of it, and how many tasks were taken.
fn left_of_threads<R: Threads + Wait + Abort + Sync>(
    rt: &R,
    alloc: Global,
    policy: Policy,
    workers: u8,
    count: u32,
) -> Result<(Vec<Task>, u64), OutOfMemory>
    requires in_queues { policy ≢ Prio }
    requires some { 0 < workers }
{
    let takes = AtomicU64::new(0);
    let (shared, mut passes) = Shared::make(alloc, policy, workers)?;
    take_in_threads(rt, &shared, passes.as_mut_slice(), count, &takes);
    let left = shared.close(rt, alloc, passes)?;
    Ok((left, takes.load(SeqCst)))
}

// Of so many tasks each is taken or left.
fn none_is_lost<R: Threads + Wait + Abort + Sync>(
    rt: &R,
    alloc: Global,
    policy: Policy,
) -> Result<(), OutOfMemory>
    requires { policy ≢ Prio }
{
    let (left, takes) = left_of_threads(rt, alloc, policy, 3, 20000)?;
    assert_eq!(rt; takes.wrapping_add(left.len() as u64), 20000);
    Ok(())
}

#[test]
fn three_threads_lose_nothing(rt: HostRuntime) -> Result<(), OutOfMemory> {
    none_is_lost(&rt, rt.alloc(), Policy::Eager)?;
    none_is_lost(&rt, rt.alloc(), Policy::Ws)
}

#[test]
fn close_gives_what_is_left(rt: HostRuntime) -> Result<(), OutOfMemory> {
    let (left, takes) = left_of_threads(&rt, rt.alloc(), Policy::Eager, 1, 4)?;
    assert!(rt; left.as_slice() == [Task(2), Task(3)].as_slice());
    assert_eq!(rt; takes, 2);
    let (left, takes) = left_of_threads(&rt, rt.alloc(), Policy::Ws, 1, 4)?;
    assert!(rt; left.as_slice() == [Task(2), Task(3)].as_slice());
    assert_eq!(rt; takes, 2);
    Ok(())
}
