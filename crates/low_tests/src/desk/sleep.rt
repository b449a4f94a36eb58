// Seats that sleep: none is forgotten, all sleep, and none sleeps through the bell.
ghost use Rattle.std.specs.Prelude.{◌≡◌, ◌<◌, is_some, true};
ghost use Rattle.sj_desk.specs.Seats.{AreInPlace, IsWaiting};

use super::{Journal, note, opened, visit};
use sj_desk::{Desk, DeskSeat};
use std::alloc::Global;
use std::sync::Wait;
use std::sync::atomic::{AtomicU64, Ordering};
use std::test::Fail;
use std::thread;
use std::thread::Threads;
use std::time::{Clock, CpuClock, Duration};

// How many milliseconds a seat is made to sleep.
const A_WHILE: u64 = 200;

// More bells than a test has seats.
const BELLS: u8 = 4;

// What several threads tell one another: how many came to the place that the others wait for, how many are done, how
// much processor time they used in their sleep, and whether one had to be woken by the test.
#[derive(Drop)]
struct Watch {
    came: AtomicU64,
    done: AtomicU64,
    used: AtomicU64,
    forgotten: AtomicU64,
}

impl Watch {
    fn new() -> Watch {
        Watch {
            came: AtomicU64::new(0),
            done: AtomicU64::new(0),
            used: AtomicU64::new(0),
            forgotten: AtomicU64::new(0),
        }
    }

    fn comes(&self) {
        self.came.fetch_add(1, Ordering::SeqCst);
    }

    // Waits until so many have come.
    fn wait_for<R: Wait + Clock>(&self, rt: &R, count: u64) {
        for _ in rt.forever() {
            if self.came.load(Ordering::SeqCst) >= count {
                break;
            }
            thread::sleep(rt, Duration::from_millis(1));
        }
    }

    // One is done, and used so much processor time in its sleep.
    fn ends(&self, used: Duration) {
        let micros = used.as_micros().min(1_000_000) as u64;
        self.used.fetch_add(micros, Ordering::SeqCst);
        self.done.fetch_add(1, Ordering::SeqCst);
    }

    // Whether so many are done within ten seconds.
    fn are_done<R: Clock>(&self, rt: &R, count: u64) -> bool {
        for _ in 0..1_000 {
            if self.done.load(Ordering::SeqCst) == count {
                return true;
            }
            thread::sleep(rt, Duration::from_millis(10));
        }
        false
    }
}

// The processor time of this thread.
fn spent<R: CpuClock>(rt: &R) -> Duration {
    rt.thread_cpu_time().unwrap_or(Duration::ZERO)
}

// Rings all bells.
fn ring_all(desk: &Desk<Journal>, seat: &mut DeskSeat<Journal>)
    requires { IsWaiting desk.now seat.old }
    ensures waits { IsWaiting desk.now seat.new }
    ensures number { seat.new.number ≡ seat.old.number }
{
    for bell in 0..BELLS {
        desk.ring(seat, bell);
    }
}

// Rings and has a turn, by which whoever sleeps wakes, and notes it, until so many are done.
fn see_to_the_end<R: Wait + Clock>(
    rt: &R,
    desk: &Desk<Journal>,
    seat: &mut DeskSeat<Journal>,
    watch: &Watch,
    count: u64,
)
    requires { IsWaiting desk.now seat.old }
    ensures waits { IsWaiting desk.now seat.new }
    ensures number { seat.new.number ≡ seat.old.number }
{
    for _ in rt.forever() {
        if watch.are_done(rt, count) {
            break;
        }
        watch.forgotten.store(1, Ordering::SeqCst);
        ring_all(desk, seat);
        visit(rt, desk, seat);
    }
}

// Keeps the turn until the others sleep, and then sees to it that each has its turn.
fn keep<R: Wait + Clock>(
    rt: &R,
    desk: &Desk<Journal>,
    seat: &mut DeskSeat<Journal>,
    watch: &Watch,
    others: u64,
)
    requires { IsWaiting desk.now seat.old }
    ensures waits { IsWaiting desk.now seat.new }
    ensures number { seat.new.number ≡ seat.old.number }
{
    let journal = desk.enter(rt, seat);
    watch.comes();
    thread::sleep(rt, Duration::from_millis(A_WHILE));
    desk.leave(seat, journal);
    see_to_the_end(rt, desk, seat, watch, others);
}

// A turn that is asked for while another seat keeps it.
fn wait<R: Wait + Clock + CpuClock>(
    rt: &R,
    desk: &Desk<Journal>,
    seat: &mut DeskSeat<Journal>,
    watch: &Watch,
)
    requires { IsWaiting desk.now seat.old }
    ensures waits { IsWaiting desk.now seat.new }
    ensures number { seat.new.number ≡ seat.old.number }
{
    watch.wait_for(rt, 1);
    let before = spent(rt);
    note(rt, desk, seat, 1);
    watch.ends(spent(rt).saturating_sub(before));
}

// The first seat keeps the turn while all others wait for it, each in a thread of its own.
fn keep_and_wait<R: Threads + Wait + Clock + CpuClock + Sync>(
    rt: &R,
    desk: &Desk<Journal>,
    seats: &mut [DeskSeat<Journal>],
    watch: &Watch,
)
    requires { AreInPlace desk.now seats.old }
    ensures { AreInPlace desk.now seats.new }
{
    let threads = seats.len().max(1);
    let others = threads as u64 - 1;
    thread::for_each_mut(
        rt,
        seats,
        threads,
        &|i, seat| {
            if i == 0 {
                keep(rt, desk, seat, watch, others)
            } else {
                wait(rt, desk, seat, watch)
            }
        },
    );
}

// What the others write while they wait, at a desk of so many seats.
fn written<R: Threads + Wait + Clock + CpuClock + Sync>(
    rt: &R,
    alloc: Global,
    seats: u8,
    watch: &Watch,
) -> Result<Journal, Journal>
    requires { 0 < seats }
{
    let (desk, mut seats) = opened(alloc, seats)?;
    keep_and_wait(rt, &desk, seats.as_mut_slice(), watch);
    Ok(desk.close(seats))
}

#[test]
fn each_of_several_that_sleep_gets_its_turn(rt: HostRuntime) -> Result<(), Fail> {
    for others in [2, 3] {
        let watch = Watch::new();
        let Ok(journal) = written(&rt, rt.alloc(), others + 1, &watch) else {
            panic!(rt; "no memory")
        };
        assert_eq!(rt; journal.entries.len(), others as usize);
        assert_eq!(rt; watch.forgotten.load(Ordering::SeqCst), 0);
        assert!(rt; watch.used.load(Ordering::SeqCst) < 100_000);
    }
    Ok(())
}

// Rings when the others rest, and sees to it that each goes on.
fn ring<R: Wait + Clock>(
    rt: &R,
    desk: &Desk<Journal>,
    seat: &mut DeskSeat<Journal>,
    watch: &Watch,
    others: u64,
)
    requires { IsWaiting desk.now seat.old }
    ensures waits { IsWaiting desk.now seat.new }
    ensures number { seat.new.number ≡ seat.old.number }
{
    watch.wait_for(rt, others);
    thread::sleep(rt, Duration::from_millis(A_WHILE));
    if watch.done.load(Ordering::SeqCst) != 0 {
        watch.forgotten.store(1, Ordering::SeqCst);
    }
    note(rt, desk, seat, 1);
    desk.ring(seat, 0);
    see_to_the_end(rt, desk, seat, watch, others);
}

// A turn in which the seat hears a bell.
fn hear<R: Wait>(rt: &R, desk: &Desk<Journal>, seat: &mut DeskSeat<Journal>, bell: u8)
    requires { IsWaiting desk.now seat.old }
    ensures waits { IsWaiting desk.now seat.new }
    ensures number { seat.new.number ≡ seat.old.number }
    ensures heard { is_some seat.new.heard ≡ true }
{
    let mut journal = desk.enter(rt, seat);
    journal.add(seat.number(), 1);
    desk.listen(seat, bell);
    desk.leave(seat, journal);
}

// A turn in which the seat hears a bell, and a rest after it.
fn rest<R: Wait + Clock + CpuClock>(
    rt: &R,
    desk: &Desk<Journal>,
    seat: &mut DeskSeat<Journal>,
    watch: &Watch,
    bell: u8,
)
    requires { IsWaiting desk.now seat.old }
    ensures waits { IsWaiting desk.now seat.new }
    ensures number { seat.new.number ≡ seat.old.number }
{
    hear(rt, desk, seat, bell);
    watch.comes();
    let before = spent(rt);
    desk.rest(rt, seat);
    watch.ends(spent(rt).saturating_sub(before));
}

// The first seat rings while all others rest, each in a thread of its own.
fn ring_and_rest<R: Threads + Wait + Clock + CpuClock + Sync>(
    rt: &R,
    desk: &Desk<Journal>,
    seats: &mut [DeskSeat<Journal>],
    watch: &Watch,
)
    requires { AreInPlace desk.now seats.old }
    ensures { AreInPlace desk.now seats.new }
{
    let threads = seats.len().max(1);
    let others = threads as u64 - 1;
    thread::for_each_mut(
        rt,
        seats,
        threads,
        &|i, seat| {
            if i == 0 {
                ring(rt, desk, seat, watch, others)
            } else {
                rest(rt, desk, seat, watch, 0)
            }
        },
    );
}

#[test]
fn all_that_rest_wake_when_the_bell_rings(rt: HostRuntime) -> Result<(), Fail> {
    for count in [2, 3, 4] {
        let Ok((desk, mut seats)) = opened(rt.alloc(), count) else {
            panic!(rt; "no memory")
        };
        let watch = Watch::new();
        ring_and_rest(&rt, &desk, seats.as_mut_slice(), &watch);
        assert_eq!(rt; watch.forgotten.load(Ordering::SeqCst), 0);
        assert!(rt; watch.used.load(Ordering::SeqCst) < 100_000);
    }
    Ok(())
}

// Rings the bell of one of two others, and then that of the other, when both rest, each on its own.
fn ring_one<R: Wait + Clock>(
    rt: &R,
    desk: &Desk<Journal>,
    seat: &mut DeskSeat<Journal>,
    watch: &Watch,
)
    requires { IsWaiting desk.now seat.old }
    ensures waits { IsWaiting desk.now seat.new }
    ensures number { seat.new.number ≡ seat.old.number }
{
    watch.wait_for(rt, 2);
    thread::sleep(rt, Duration::from_millis(A_WHILE));
    desk.ring(seat, 2);
    if !watch.are_done(rt, 1) {
        watch.forgotten.store(1, Ordering::SeqCst);
    }
    thread::sleep(rt, Duration::from_millis(A_WHILE));
    if watch.done.load(Ordering::SeqCst) != 1 {
        watch.forgotten.store(1, Ordering::SeqCst);
    }
    desk.ring(seat, 1);
    see_to_the_end(rt, desk, seat, watch, 2);
}

// A turn in which the seat hears the bell of its number, and a rest after it.
fn rest_on_its_own<R: Wait + Clock + CpuClock>(
    rt: &R,
    desk: &Desk<Journal>,
    seat: &mut DeskSeat<Journal>,
    watch: &Watch,
)
    requires { IsWaiting desk.now seat.old }
    ensures waits { IsWaiting desk.now seat.new }
    ensures number { seat.new.number ≡ seat.old.number }
{
    let bell = seat.number();
    rest(rt, desk, seat, watch, bell);
}

// The first seat rings while the two others rest, each in a thread of its own and on the bell of its number.
fn ring_one_of_two<R: Threads + Wait + Clock + CpuClock + Sync>(
    rt: &R,
    desk: &Desk<Journal>,
    seats: &mut [DeskSeat<Journal>],
    watch: &Watch,
)
    requires { AreInPlace desk.now seats.old }
    ensures { AreInPlace desk.now seats.new }
{
    thread::for_each_mut(
        rt,
        seats,
        3,
        &|i, seat| {
            if i == 0 {
                ring_one(rt, desk, seat, watch)
            } else {
                rest_on_its_own(rt, desk, seat, watch)
            }
        },
    );
}

#[test]
fn a_ring_wakes_who_rests_on_that_bell_and_nobody_else(rt: HostRuntime) -> Result<(), Fail> {
    let Ok((desk, mut seats)) = opened(rt.alloc(), 3) else {
        panic!(rt; "no memory")
    };
    let watch = Watch::new();
    ring_one_of_two(&rt, &desk, seats.as_mut_slice(), &watch);
    assert_eq!(rt; watch.forgotten.load(Ordering::SeqCst), 0);
    assert!(rt; watch.used.load(Ordering::SeqCst) < 100_000);
    Ok(())
}

// Hears the bell, and rests once it has rung.
fn rest_late<R: Wait + Clock>(
    rt: &R,
    desk: &Desk<Journal>,
    seat: &mut DeskSeat<Journal>,
    watch: &Watch,
)
    requires { IsWaiting desk.now seat.old }
    ensures waits { IsWaiting desk.now seat.new }
    ensures number { seat.new.number ≡ seat.old.number }
{
    hear(rt, desk, seat, 1);
    watch.comes();
    watch.wait_for(rt, 2);
    desk.rest(rt, seat);
    watch.ends(Duration::ZERO);
}

// Rings once the other has heard the bell.
fn ring_early<R: Wait + Clock>(
    rt: &R,
    desk: &Desk<Journal>,
    seat: &mut DeskSeat<Journal>,
    watch: &Watch,
)
    requires { IsWaiting desk.now seat.old }
    ensures waits { IsWaiting desk.now seat.new }
    ensures number { seat.new.number ≡ seat.old.number }
{
    watch.wait_for(rt, 1);
    note(rt, desk, seat, 1);
    desk.ring(seat, 1);
    watch.comes();
    see_to_the_end(rt, desk, seat, watch, 1);
}

// The first seat rings between the turn of the second, in which it heard the bell, and its rest.
fn ring_before_the_rest<R: Threads + Wait + Clock + Sync>(
    rt: &R,
    desk: &Desk<Journal>,
    seats: &mut [DeskSeat<Journal>],
    watch: &Watch,
)
    requires { AreInPlace desk.now seats.old }
    ensures { AreInPlace desk.now seats.new }
{
    thread::for_each_mut(
        rt,
        seats,
        2,
        &|i, seat| {
            if i == 0 {
                ring_early(rt, desk, seat, watch)
            } else {
                rest_late(rt, desk, seat, watch)
            }
        },
    );
}

#[test]
fn a_ring_between_turn_and_rest_is_not_lost(rt: HostRuntime) -> Result<(), Fail> {
    let Ok((desk, mut seats)) = opened(rt.alloc(), 2) else {
        panic!(rt; "no memory")
    };
    let watch = Watch::new();
    ring_before_the_rest(&rt, &desk, seats.as_mut_slice(), &watch);
    assert_eq!(rt; watch.forgotten.load(Ordering::SeqCst), 0);
    Ok(())
}
