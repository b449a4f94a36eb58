//! Entries side by side in one block, and the least bytes among them.

ghost use Rattle.std.specs.Prelude.{◌≡◌, ℕ, ◌↔◌, ◌<◌, ◌≤◌, ◌++◌, [], length, take, insert, not, nat_le, IfOk, IfSome, IsTrue};
ghost use Rattle.std.specs.List.{position};
ghost use Rattle.std.specs.Vec.{vec_capacity};
ghost use Rattle.sj_pool.specs.Chunk.{HasLeast, chunk_room, urgency_place};
ghost use Rattle.sj_pool.specs.Entry.{fits_room, precedes};
ghost use Rattle.sj_pool.specs.Queue.{has_fitting, first_fitting, without_first_fitting, is_by_urgency};
ghost use Rattle.sj_pool.specs.Root.{IsLeastBytes};

use crate::entry::Entry;
use sj_base::memory::OutOfMemory;
use std::alloc::Global;
use std::marker::Model;

/// The most entries of a chunk.
pub const CHUNK: usize = 32;

/// At most so many entries, in memory that was taken in advance.
#[derive(Drop)]
pub struct Chunk {
    entries: Vec<Entry>,
    /// The least bytes of an entry, where there is one.
    least: u64,
}

impl Model for Chunk {
    ghost use Rattle.std.specs.Prelude.{◌≤◌, List, length};
    ghost use Rattle.std.specs.Vec.{vec_capacity};
    ghost use Rattle.sj_pool.specs.declared.entry.Entry.{Entry};
    ghost use Rattle.sj_pool.specs.Chunk.{chunk_room, HasLeast};

    ghost Value = { List Entry };

    ghost view = { λ c. c.entries.items };

    ghost invariant = { λ c. (chunk_room ≤ vec_capacity c.entries)
        × (length c.entries.items ≤ chunk_room)
        × HasLeast c.least c.entries.items };
}

/// The least of some bytes and those of the entries.
fn least_of(entries: &[Entry], bytes: u64) -> u64
    ensures { IsLeastBytes result bytes entries.now }
{
    let mut least = bytes;
    for i in 0..entries.len() {
        least = least.min(entries[i].bytes);
    }
    least
}

/// The least bytes of the entries, where there is one.
fn least_among(entries: &[Entry]) -> u64
    ensures { HasLeast result entries.now }
{
    match entries.first() {
        None => 0,
        Some(first) => least_of(entries, first.bytes),
    }
}

/// The least of some bytes and those of the entries, of which the least is known. Constant time.
fn least_with(entries: &[Entry], least: u64, bytes: u64) -> u64
    requires { HasLeast least entries.now }
    ensures { IsLeastBytes result bytes entries.now }
{
    if entries.is_empty() {
        return bytes;
    }
    bytes.min(least)
}

/// The least bytes where an entry is put at a place of the entries, of which the least is known.
fn least_inserted(entries: &[Entry], least: u64, place: usize, entry: &Entry) -> u64
    requires { HasLeast least entries.now }
    ensures { HasLeast result (insert entries.now place entry.now) }
{
    least_with(entries, least, entry.bytes)
}

/// Whether all entries are seen to be more urgent than another by the last of them.
#[tactic(auto, using(crate::proofs::Queues::last_of_all))]
fn all_precede(entries: &[Entry], entry: &Entry) -> bool
    requires { IsTrue (is_by_urgency entries.now) }
    ensures { IsTrue result → urgency_place entry.now entries.now ≡ length entries.now }
{
    if entries.is_empty() {
        return true;
    }
    entries[entries.len() - 1].precedes(entry)
}

/// The place of the first entry that isn't more urgent than another.
fn place_by_urgency(entries: &[Entry], entry: &Entry) -> Option<usize>
    ensures place { result ≡ position (λ x. not (precedes x entry.now)) entries.now }
    ensures within { IfSome result (λ i. i < length entries.now) }
{
    entries.iter().position(|x| !x.precedes(entry))
}

/// The place of the first entry that isn't more urgent than another, or the length. Linear time, and
/// constant where all are more urgent.
pub fn urgency_place(entries: &[Entry], entry: &Entry) -> usize
    requires { IsTrue (is_by_urgency entries.now) }
    ensures place { result ≡ urgency_place entry.now entries.now }
    ensures within { result ≤ length entries.now }
{
    if all_precede(entries, entry) {
        return entries.len();
    }
    place_by_urgency(entries, entry).unwrap_or(entries.len())
}

/// The place of the first entry that fits.
pub fn place_of_fitting(entries: &[Entry], room: u64) -> Option<usize>
    ensures place { result ≡ position (fits_room room) entries.now }
    ensures within { IfSome result (λ i. i < length entries.now) }
{
    entries.iter().position(|entry| entry.fits(room))
}

/// Takes the first entry that fits out of a list. Linear time.
pub fn take_from_list(list: &mut Vec<Entry>, room: u64) -> Option<Entry>
    ensures taken { result ≡ first_fitting room list.old.items }
    ensures rest { list.new.items ≡ without_first_fitting room list.old.items }
    ensures capacity { vec_capacity list.new ≡ vec_capacity list.old }
{
    match place_of_fitting(list, room) {
        None => None,
        Some(place) => Some(list.remove(place)),
    }
}

impl Chunk {
    /// No entry.
    pub fn make(alloc: Global) -> Result<Chunk, OutOfMemory>
        ensures { IfOk result (λ c. c ≡ []) }
    {
        let entries = Vec::with_capacity(alloc, CHUNK)?;
        Ok(Chunk { entries, least: 0 })
    }

    pub fn len(&self) -> usize
        ensures count { result ≡ length self.now }
        ensures few { result ≤ chunk_room }
    {
        self.entries.len()
    }

    pub fn is_empty(&self) -> bool
        ensures { IsTrue result ↔ (self.now ≡ []) }
    {
        self.entries.is_empty()
    }

    pub fn as_slice(&self) -> &[Entry]
        ensures { result.now ≡ self.now }
    {
        self.entries.as_slice()
    }

    /// Whether an entry fits so much room. Constant time.
    pub fn fits(&self, room: u64) -> bool
        ensures { result ≡ has_fitting room self.now }
    {
        !self.entries.is_empty() && self.least <= room
    }

    /// The least bytes of an entry.
    pub fn least(&self) -> u64
        requires { 0 < length self.now }
        ensures { (room : ℕ) → nat_le result room ≡ has_fitting room self.now }
    {
        self.least
    }

    /// Puts an entry at a place. Linear in the entries behind it.
    pub fn insert(&mut self, place: usize, entry: Entry)
        requires within { place ≤ length self.old }
        requires room { length self.old < chunk_room }
        ensures { self.new ≡ insert self.old place entry }
    {
        self.least = least_inserted(&self.entries, self.least, place, &entry);
        let _ = self.entries.insert(place, entry);
    }

    /// Has these entries alone.
    pub fn fill(&mut self, entries: &[Entry])
        requires { length entries.now ≤ chunk_room }
        ensures { self.new ≡ entries.now }
    {
        self.entries.clear();
        let _ = self.entries.extend_from_slice(entries);
        self.least = least_among(entries);
    }

    /// Has the entries before a place alone.
    pub fn truncate(&mut self, place: usize)
        ensures { self.new ≡ take place self.old }
    {
        self.entries.truncate(place);
        self.least = least_among(&self.entries);
    }

    /// Takes the first entry that fits out.
    #[tactic(auto, using(crate::proofs::Queues::fewer))]
    pub fn take(&mut self, room: u64) -> Option<Entry>
        ensures taken { result ≡ first_fitting room self.old }
        ensures rest { self.new ≡ without_first_fitting room self.old }
    {
        let taken = take_from_list(&mut self.entries, room);
        self.least = least_among(&self.entries);
        taken
    }

    /// Moves the entries from a place on into another chunk, in which nothing stays, and puts an entry
    /// at a place of them all.
    #[tactic(auto, using(crate::proofs::Queues::in_halves))]
    pub fn split(&mut self, half: usize, place: usize, entry: Entry, other: &mut Chunk)
        requires within { place ≤ length self.old }
        requires half { half ≤ length self.old }
        requires room { length self.old ≤ chunk_room }
        requires front { place < half → half < chunk_room }
        requires back { half ≤ place → 0 < half }
        ensures entries { self.new ++ other.new ≡ insert self.old place entry }
        ensures some { 0 < half → 0 < length self.new }
        ensures others { half < length self.old → 0 < length other.new }
    {
        other.fill(&self.entries[half..]);
        self.truncate(half);
        if place < half {
            self.insert(place, entry);
        } else {
            other.insert(place - half, entry);
        }
    }
}
