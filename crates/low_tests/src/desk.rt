ghost use Rattle.std.specs.Prelude.{◌≡◌, ◌≢◌, ℕ, ◌<◌, Some, None, All, IfOk, IfSome, ◌==◌, filter};
ghost use Rattle.sj_desk.specs.Seats.{AreInPlace, IsWaiting};

use sj_desk::{Busy, Desk, DeskSeat, Keyed};
use std::alloc::Global;
use std::process::Abort;
use std::sync::Wait;
use std::test::Fail;
use std::thread;
use std::thread::Threads;
use std::time::{Clock, Duration};

mod sleep;

// A journal that several write: its title is the key, and the row of a seat is that seat's entries.
#[derive(Drop)]
struct Journal {
    title: u32,
    entries: Vec<(u8, u32)>,
}

impl Keyed for Journal {
    ghost use Rattle.std.specs.Prelude.{ℕ, List, ◌≢◌, ◌==◌, filter};

    ghost Key = { ℕ };

    ghost Row = { List (ℕ × ℕ) };

    ghost key = { λ j. j.title };

    ghost row_of = { λ j n. filter (λ e. e.0 == n) j.entries.items };

    ghost sound = { λ j. j.title ≢ 0 };
}

impl Journal {
    fn add(&mut self, by: u8, entry: u32)
        ensures title { self.new.title ≡ self.old.title }
        ensures others { (n : ℕ) → n ≢ by
            → filter (λ e. e.0 == n) self.new.entries.items
            ≡ filter (λ e. e.0 == n) self.old.entries.items }
    {
        let _ = self.entries.push((by, entry));
    }
}

// One turn, in which the seat adds an entry.
fn note<R: Wait>(rt: &R, desk: &Desk<Journal>, seat: &mut DeskSeat<Journal>, entry: u32)
    requires { IsWaiting desk.now seat.old }
    ensures waits { IsWaiting desk.now seat.new }
    ensures number { seat.new.number ≡ seat.old.number }
{
    let mut journal = desk.enter(rt, seat);
    journal.add(seat.number(), entry);
    desk.leave(seat, journal);
}

// Two turns in direct succession, in each of which the seat adds an entry.
fn note_two<R: Wait>(
    rt: &R,
    desk: &Desk<Journal>,
    seat: &mut DeskSeat<Journal>,
    entries: (u32, u32),
)
    requires { IsWaiting desk.now seat.old }
    ensures waits { IsWaiting desk.now seat.new }
    ensures number { seat.new.number ≡ seat.old.number }
{
    let mut journal = desk.enter(rt, seat);
    journal.add(seat.number(), entries.0);
    let mut journal = desk.renew(seat, journal);
    journal.add(seat.number(), entries.1);
    desk.leave(seat, journal);
}

// Adds so many entries: one in a turn alone, then two in turns in direct succession, and so on.
fn note_all<R: Wait>(rt: &R, desk: &Desk<Journal>, seat: &mut DeskSeat<Journal>, count: u32)
    requires { IsWaiting desk.now seat.old }
    ensures waits { IsWaiting desk.now seat.new }
    ensures number { seat.new.number ≡ seat.old.number }
{
    for entry in 0..count {
        match entry % 3 {
            1 if entry + 1 < count => note_two(rt, desk, seat, (entry, entry + 1)),
            0 | 1 => note(rt, desk, seat, entry),
            _ => {}
        }
    }
}

// Each seat has a turn and then writes its entries, in a thread of its own.
fn note_in_threads<R: Threads + Wait + Sync>(
    rt: &R,
    desk: &Desk<Journal>,
    seats: &mut [DeskSeat<Journal>],
    count: u32,
)
    requires { AreInPlace desk.now seats.old }
    ensures { AreInPlace desk.now seats.new }
{
    let threads = seats.len().max(1);
    thread::for_each_mut(
        rt,
        seats,
        threads,
        &|_, seat| { note_all(rt, desk, seat, count) },
    );
}

// A turn of any desk in which nothing changes.
fn visit<T: Keyed, R: Wait>(rt: &R, desk: &Desk<T>, seat: &mut DeskSeat<T>)
    requires { IsWaiting desk.now seat.old }
    ensures waits { IsWaiting desk.now seat.new }
    ensures number { seat.new.number ≡ seat.old.number }
{
    let value = desk.enter(rt, seat);
    desk.leave(seat, value);
}

// Each seat of any desk takes such a turn, in a thread of its own.
fn visit_in_threads<T: Keyed + Send, R: Threads + Wait + Sync>(
    rt: &R,
    desk: &Desk<T>,
    seats: &mut [DeskSeat<T>],
)
    requires { AreInPlace desk.now seats.old }
    ensures { AreInPlace desk.now seats.new }
{
    let threads = seats.len().max(1);
    thread::for_each_mut(rt, seats, threads, &|_, seat| visit(rt, desk, seat));
}

// A desk with an empty journal.
fn opened(alloc: Global, seats: u8) -> Result<(Desk<Journal>, Vec<DeskSeat<Journal>>), Journal>
    requires { 0 < seats }
    ensures { IfOk result (λ r. AreInPlace r.0 r.1.items) }
{
    let entries = Vec::new(alloc);
    Desk::make(alloc, Journal { title: 7, entries }, seats)
}

// What so many seats write in threads of their own.
fn written<R: Threads + Wait + Sync>(
    rt: &R,
    alloc: Global,
    seats: u8,
    count: u32,
) -> Result<Journal, Journal>
    requires { 0 < seats }
{
    let (desk, mut seats) = opened(alloc, seats)?;
    note_in_threads(rt, &desk, seats.as_mut_slice(), count);
    Ok(desk.close(seats))
}

// Whether one seat's entries are the numbers below the count, in order.
fn has_counted(journal: &Journal, seat: u8, count: u32) -> bool {
    let mut next = 0u32;
    for &(by, entry) in journal.entries.as_slice() {
        if by == seat {
            if entry != next || next == count {
                return false;
            }
            next += 1;
        }
    }
    next == count
}

#[test]
fn all_that_each_thread_wrote_is_found(rt: HostRuntime) -> Result<(), Fail> {
    for (seats, count) in [(2, 400), (4, 250)] {
        let Ok(journal) = written(&rt, rt.alloc(), seats, count) else {
            panic!(rt; "no memory")
        };
        assert_eq!(rt; journal.title, 7);
        assert_eq!(rt; journal.entries.len(), seats as usize * count as usize);
        for seat in 0..seats {
            assert!(rt; has_counted(&journal, seat, count));
        }
    }
    Ok(())
}

// Two of the seats.
fn two_of(
    desk: &Desk<Journal>,
    mut seats: Vec<DeskSeat<Journal>>,
) -> Option<(DeskSeat<Journal>, DeskSeat<Journal>)>
    requires { All (IsWaiting desk.now) seats.items }
    ensures { IfSome result (λ r. IsWaiting desk.now r.0 × IsWaiting desk.now r.1) }
{
    let second = seats.pop()?;
    let first = seats.pop()?;
    Some((first, second))
}

#[test]
fn a_second_seat_is_refused_until_the_first_leaves(rt: HostRuntime) -> Result<(), Fail> {
    let Ok((desk, seats)) = opened(rt.alloc(), 2) else {
        panic!(rt; "no memory")
    };
    let Some((mut first, mut second)) = two_of(&desk, seats) else {
        panic!(rt; "fewer than two seats")
    };
    let Ok(mut journal) = desk.try_enter(&mut first) else {
        panic!(rt; "the turn is taken")
    };
    let Err(Busy) = desk.try_enter(&mut second) else {
        panic!(rt; "two are in their turn")
    };
    journal.add(first.number(), 5);
    desk.leave(&mut first, journal);
    let Ok(journal) = desk.try_enter(&mut second) else {
        panic!(rt; "the turn wasn't given back")
    };
    assert_eq!(rt; journal.entries.as_slice(), [(0, 5)].as_slice());
    Ok(())
}

#[test]
fn a_second_seat_is_refused_between_turns_in_direct_succession(
    rt: HostRuntime,
) -> Result<(), Fail> {
    let Ok((desk, seats)) = opened(rt.alloc(), 2) else {
        panic!(rt; "no memory")
    };
    let Some((mut first, mut second)) = two_of(&desk, seats) else {
        panic!(rt; "fewer than two seats")
    };
    let Ok(mut journal) = desk.try_enter(&mut first) else {
        panic!(rt; "the turn is taken")
    };
    journal.add(first.number(), 5);
    let mut journal = desk.renew(&mut first, journal);
    let Err(Busy) = desk.try_enter(&mut second) else {
        panic!(rt; "two are in their turn")
    };
    journal.add(first.number(), 6);
    desk.leave(&mut first, journal);
    let Ok(journal) = desk.try_enter(&mut second) else {
        panic!(rt; "the turn wasn't given back")
    };
    assert_eq!(rt; journal.entries.as_slice(), [(0, 5), (0, 6)].as_slice());
    Ok(())
}

// One turn, in which the seat finds these entries and adds one.
fn find_and_note<R: Wait + Abort>(
    rt: &R,
    desk: &Desk<Journal>,
    seat: &mut DeskSeat<Journal>,
    wanted: &[(u8, u32)],
    entry: u32,
)
    requires { IsWaiting desk.now seat.old }
    ensures { IsWaiting desk.now seat.new }
{
    let mut journal = desk.enter(rt, seat);
    assert_eq!(rt; journal.entries.as_slice(), wanted);
    journal.add(seat.number(), entry);
    desk.leave(seat, journal);
}

#[test]
fn each_turn_finds_what_both_seats_left(rt: HostRuntime) -> Result<(), Fail> {
    let Ok((desk, seats)) = opened(rt.alloc(), 2) else {
        panic!(rt; "no memory")
    };
    let Some((mut first, mut second)) = two_of(&desk, seats) else {
        panic!(rt; "fewer than two seats")
    };
    find_and_note(&rt, &desk, &mut first, &[], 5);
    find_and_note(&rt, &desk, &mut second, &[(0, 5)], 6);
    find_and_note(&rt, &desk, &mut second, &[(0, 5), (1, 6)], 7);
    find_and_note(&rt, &desk, &mut first, &[(0, 5), (1, 6), (1, 7)], 8);
    find_and_note(
        &rt,
        &desk,
        &mut second,
        &[(0, 5), (1, 6), (1, 7), (0, 8)],
        9,
    );
    Ok(())
}

// Keeps the turn for a while, and leaves the journal as it was found.
fn leave_later<R: Clock>(
    rt: &R,
    desk: &Desk<Journal>,
    mut seat: DeskSeat<Journal>,
    journal: Journal,
)
    requires of_this_desk { seat.desk ≡ Some desk.now }
    requires in_its_turn { seat.found ≡ Some journal }
    requires key { journal.title ≡ desk.now.opening.title }
    requires sound { journal.title ≢ 0 }
{
    thread::sleep(rt, Duration::from_millis(50));
    desk.leave(&mut seat, journal);
}

// One thread keeps the turn for a while, and another sleeps until it has it.
fn hand_over<R: Threads + Wait + Clock + Sync>(
    rt: &R,
    desk: &Desk<Journal>,
    mut first: DeskSeat<Journal>,
    mut second: DeskSeat<Journal>,
) -> Journal
    requires first { IsWaiting desk.now first }
    requires second { IsWaiting desk.now second }
{
    let journal = desk.enter(rt, &mut first);
    let ((), found) = thread::join(
        rt,
        move ||
            requires of_this_desk { first.desk ≡ Some desk.now }
            requires in_its_turn { first.found ≡ Some journal }
            requires key { journal.title ≡ desk.now.opening.title }
            requires sound { journal.title ≢ 0 }
        { leave_later(rt, desk, first, journal) },
        || desk.enter(rt, &mut second),
    );
    found
}

#[test]
fn a_seat_that_sleeps_is_woken(rt: HostRuntime) -> Result<(), Fail> {
    let Ok((desk, seats)) = opened(rt.alloc(), 2) else {
        panic!(rt; "no memory")
    };
    let Some((first, second)) = two_of(&desk, seats) else {
        panic!(rt; "fewer than two seats")
    };
    assert_eq!(rt; hand_over(&rt, &desk, first, second).title, 7);
    Ok(())
}

#[test]
fn the_value_comes_back_where_memory_is_refused(rt: HostRuntime) -> Result<(), Fail> {
    if let Err(journal) = opened(rt.alloc(), 200) {
        assert_eq!(rt; (journal.title, journal.entries.len()), (7, 0));
    }
    Ok(())
}
