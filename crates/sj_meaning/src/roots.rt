//! The roots of a job by name and by number.

ghost use Rattle.std.specs.Prelude.{◌≡◌, ◌<◌, ◌≤◌, [], None, length, IfSome, OnOk};
ghost use Rattle.sj_meaning.specs.Table.{table_of, name_of, info_of, root_in, with_root, AreDistinct};

use crate::job::RootInfo;
use indexmap::IndexSet;
use sj_base::ids::Root;
use sj_base::memory::OutOfMemory;
use std::alloc::Global;
use std::marker::Model;

/// The roots of a job: the one table that has each name, by its number and back. At most 4,096. Contracts see the names and
/// the rest in the order of registration.
#[derive(Drop)]
pub struct Roots {
    names: IndexSet<Vec<u8>>,
    infos: Vec<RootInfo>,
}

impl Model for Roots {
    ghost use Rattle.std.specs.Prelude.{map};
    ghost use Rattle.sj_meaning.specs.Table.{Table, table_of, IsTable};

    ghost Value = { Table };

    ghost view = { λ r. table_of (map (λ k. k.items) r.names.keys) r.infos.items };

    ghost invariant = { λ r. IsTable (table_of (map (λ k. k.items) r.names.keys) r.infos.items) };
}

impl Roots {
    /// No root. Constant time.
    pub fn none(alloc: Global) -> Roots
        ensures { result ≡ table_of [] [] }
    {
        Roots {
            names: IndexSet::new(alloc),
            infos: Vec::new(alloc),
        }
    }

    /// How many roots there are. Constant time.
    pub fn len(&self) -> usize
        ensures count { result ≡ length self.now.names }
        ensures infos { length self.now.infos ≡ length self.now.names }
        ensures distinct { AreDistinct self.now.names }
        ensures few { length self.now.names ≤ 4096 }
    {
        self.infos.len()
    }

    /// The root of a name. Linear in the name.
    pub fn find(&self, name: &[u8]) -> Option<Root>
        ensures { result ≡ root_in self.now name.now }
    {
        match self.names.get_index_of(name) {
            Some(place) => Some(Root(place as u32)),
            None => None,
        }
    }

    /// The name of a root. Constant time.
    pub fn name(&self, root: Root) -> &[u8]
        requires { root.0 < length self.now.names }
        ensures { result.now ≡ name_of self.now root }
    {
        &self.names.as_slice()[root.0 as usize]
    }

    /// Whether a root is a vector, and its dimensions. Constant time.
    pub fn info(&self, root: Root) -> RootInfo
        requires { root.0 < length self.now.names }
        ensures { result ≡ info_of self.now root }
    {
        self.infos[root.0 as usize]
    }

    /// Registers a root: its number is how many there were. Linear in the name.
    pub fn add(&mut self, alloc: Global, name: &[u8], info: RootInfo) -> Result<(), OutOfMemory>
        requires fresh { root_in self.old name.now ≡ None }
        requires few { length self.old.names < 4096 }
        ensures whole { length self.old.infos ≡ length self.old.names }
        ensures added { OnOk result (self.new ≡ with_root name.now info self.old) }
    {
        self.infos.reserve(1)?;
        self.names.insert(Vec::from_slice(alloc, name)?)?;
        self.infos.push(info)?;
        Ok(())
    }
}
