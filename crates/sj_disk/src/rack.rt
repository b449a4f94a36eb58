//! The places of disks, of which some may be out.

ghost use Rattle.std.specs.Prelude.{◌≡◌, ◌↔◌, ℕ, ◌+◌, ◌<◌, ◌≤◌, ◌++◌, Some, false, true, length, map, replicate, slice_get, All, IfErr, IfNone, IfOk, IfSome};
ghost use Rattle.std.specs.List.{list_any, slice_set};
ghost use Rattle.std.specs.Vec.{vec_capacity, vec_len};
ghost use Rattle.sj_disk.specs.Rack.{is_out, racked, shelved, Racked, Shelved};

use sj_base::ids::DiskNo;
use std::alloc::Global;
use std::marker::Model;
use std::snapshot::Snapshot;

/// A disk, where it is in.
#[derive(Drop)]
struct DiskSlot<D: Drop> {
    disk: Option<D>,
}

/// The place of one disk.
#[derive(Drop)]
struct Shelf<D: Drop> {
    slot: DiskSlot<D>,
    /// The disk, as it was taken out where it is out.
    known: Snapshot<D>,
}

impl<D: Drop> Model for Shelf<D> {
    ghost use Rattle.std.specs.Prelude.{◌≡◌, IfSome, is_none};
    ghost use Rattle.sj_disk.specs.Rack.{Shelved, shelved};

    ghost Value = { Shelved D };

    ghost view = { λ s. shelved s.known.value (is_none s.slot.disk) };

    ghost invariant = { λ s. IfSome s.slot.disk (λ x. x ≡ s.known.value) };
}

impl<D: Drop> Shelf<D> {
    fn of(disk: D) -> Shelf<D>
        ensures { result ≡ shelved disk false }
    {
        let known = Snapshot::of(&disk);
        let slot = DiskSlot { disk: Some(disk) };
        Shelf { slot, known }
    }

    fn is_out(&self) -> bool
        ensures { result ≡ self.now.out }
    {
        self.slot.disk.is_none()
    }

    fn take(&mut self) -> Option<D>
        ensures some { IfSome result (λ x. (x ≡ self.old.disk) × (self.old.out ≡ false)) }
        ensures none { IfNone result (self.old.out ≡ true) }
        ensures out { self.new ≡ shelved self.old.disk true }
    {
        self.slot.disk.take()
    }

    fn into_disk(self) -> D
        requires { self.out ≡ false }
        ensures { result ≡ self.disk }
    {
        self.slot.disk.unwrap()
    }
}

/// Puts each disk on a shelf of its own, in their order. Linear in them; takes no memory.
fn fill<D: Drop>(disks: &mut Vec<D>, shelves: &mut Vec<Shelf<D>>)
    requires room { vec_len shelves.old + vec_len disks.old ≤ vec_capacity shelves.old }
    ensures shelves { shelves.new.items
        ≡ shelves.old.items ++ map (λ x. shelved x false) disks.old.items }
    ensures room_is_kept { vec_capacity shelves.old ≤ vec_capacity shelves.new }
    ensures none_left { vec_len disks.new ≡ 0 }
    ensures room_stays { vec_capacity disks.new ≡ vec_capacity disks.old }
{
    if let Some(disk) = disks.pop() {
        fill(disks, shelves);
        let _ = shelves.push(Shelf::of(disk));
    }
}

/// Takes the disks off their shelves, in their order. Linear in them; takes no memory.
fn gather<D: Drop>(shelves: &mut Vec<Shelf<D>>, disks: &mut Vec<D>)
    requires none_is_out { All (λ s. s.out ≡ false) shelves.old.items }
    requires room { vec_len disks.old + vec_len shelves.old ≤ vec_capacity disks.old }
    ensures disks { disks.new.items ≡ disks.old.items ++ map (λ s. s.disk) shelves.old.items }
    ensures room_is_kept { vec_capacity disks.old ≤ vec_capacity disks.new }
{
    if let Some(shelf) = shelves.pop() {
        gather(shelves, disks);
        let _ = disks.push(shelf.into_disk());
    }
}

/// Whether a disk is out. Linear in the shelves.
fn any_out<D: Drop>(shelves: &[Shelf<D>]) -> bool
    ensures { result ≡ list_any (λ s. s.out) shelves.now }
{
    shelves.iter().any(|shelf| shelf.is_out())
}

/// Disks in their order, each in its place or out.
#[derive(Drop)]
pub struct Rack<D: Drop> {
    shelves: Vec<Shelf<D>>,
    /// Room for the list of the disks.
    room: Vec<D>,
}

impl<D: Drop> Model for Rack<D> {
    ghost use Rattle.std.specs.Prelude.{◌≡◌, ◌≤◌, length, map};
    ghost use Rattle.std.specs.Vec.{vec_capacity, vec_len};
    ghost use Rattle.sj_disk.specs.Rack.{Racked, racked};

    ghost Value = { Racked D };

    ghost view = { λ r. racked (map (λ s. s.disk) r.shelves.items) (map (λ s. s.out) r.shelves.items) };

    ghost invariant = { λ r. (vec_len r.room ≡ 0) × (vec_len r.shelves ≤ vec_capacity r.room) };
}

impl<D: Drop> Rack<D> {
    /// These disks, each in its place. The error hands them back where memory runs out. Linear in
    /// them.
    pub fn make(alloc: Global, disks: Vec<D>) -> Result<Rack<D>, Vec<D>>
        ensures ok { IfOk result (λ r. r ≡ racked disks.items
            (replicate (length disks.items) false)) }
        ensures err { IfErr result (λ back. back.items ≡ disks.items) }
    {
        let Ok(mut shelves) = Vec::with_capacity(alloc, disks.len()) else {
            return Err(disks);
        };
        let mut room = disks;
        fill(&mut room, &mut shelves);
        Ok(Rack { shelves, room })
    }

    /// Whether a disk is out. Constant time.
    pub fn is_out(&self, d: DiskNo) -> bool
        requires { d.0 < length self.now.disks }
        ensures { result ≡ is_out self.now.out d.0 }
    {
        self.shelves[d.0 as usize].is_out()
    }

    /// Whether a disk is out. Linear in them.
    pub fn any_is_out(&self) -> bool
        ensures { (result ≡ false) ↔ ((d : ℕ) → is_out self.now.out d ≡ false) }
    {
        any_out(&self.shelves)
    }

    /// Takes a disk out, where it is in. Constant time.
    pub fn take(&mut self, d: DiskNo) -> Option<D>
        requires { d.0 < length self.old.disks }
        ensures was_in { IfSome result (λ x. (slice_get self.old.disks d.0 ≡ Some x)
            × (is_out self.old.out d.0 ≡ false) × (is_out self.new.out d.0 ≡ true)) }
        ensures takes { IfSome result (λ _. self.new ≡ racked self.old.disks
            (slice_set self.old.out d.0 true)) }
        ensures was_out { IfNone result ((is_out self.old.out d.0 ≡ true)
            × (self.new ≡ self.old)) }
    {
        self.shelves[d.0 as usize].take()
    }

    /// Puts a disk in a place. Constant time.
    pub fn put(&mut self, d: DiskNo, disk: D)
        requires { d.0 < length self.old.disks }
        ensures { self.new ≡ racked (slice_set self.old.disks d.0 disk)
            (slice_set self.old.out d.0 false) }
    {
        self.shelves[d.0 as usize] = Shelf::of(disk);
    }

    /// The disks in their order. Linear in them; takes no memory.
    pub fn close(self) -> Vec<D>
        requires none_is_out { (d : ℕ) → is_out self.out d ≡ false }
        ensures { result.items ≡ self.disks }
    {
        let Rack { shelves, room } = self;
        let mut shelves = shelves;
        let mut disks = room;
        gather(&mut shelves, &mut disks);
        disks
    }
}
