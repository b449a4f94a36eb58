//! The lengths of shortest walks on a ring with chords, as a job: Floyd and Warshall's algorithm by blocks.

ghost use Rattle.std.specs.Prelude.{◌≡◌, ℕ, ◌+◌, ◌%◌, ◌<◌, ◌≤◌, ◌∷◌, ◌++◌, [], pos, length, map, IfOk, OnOk};
ghost use Rattle.std.specs.List.{range_with_len, flat_map};
ghost use Rattle.sj_meaning.specs.Settings.{unset};
ghost use Rattle.sj_meaning.specs.Table.{table_of};
ghost use Rattle.sj_meaning.specs.View.{statements_of, seen_from, IsNumbered};
ghost use Rattle.sj_apps.specs.Draft.{paths_names, unless_same, IsNumberedSoFar, Tells};
ghost use Rattle.sj_apps.specs.Generated.{IsSize, apart, aparts_in_row, below, beside, diagonal, first_line, matrix_act, name_D, numbered, others, part_count, paths_statements, walk_step, walk_steps, weight, weights};
ghost use Rattle.sj_apps.specs.Shortest.{PrintsShortest};
ghost use Rattle.sj_meaning.specs.declared.job.Init.TheVariants.{Values};

use crate::draft::{Draft, tile};
use crate::product::{codelet_task, part_count, square_matrix};
use sj_base::ids::Root;
use sj_base::memory::OutOfMemory;
use sj_base::mode::Mode;
use sj_base::sequence::Sequence;
use sj_codelet::kernel::Kernel;
use sj_meaning::job::{Act, Init, Job, Operand};
use sj_meaning::roots::Roots;
use std::alloc::Global;

const D: Root = Root(0);

/// The weight of the step from i to j; a chord's is that one. Constant time.
fn weight(n: u32, chord: i64, i: u32, j: u32) -> i64
    requires some { 1 ≤ n }
    requires vertex { i < n }
    requires most { n ≤ 2048 }
    ensures { (seed : ℕ) → chord ≡ pos (5 + seed % 5) → result ≡ weight n seed i j }
{
    if j == i {
        return 0;
    }
    if j == (i + 1) % n {
        return 3;
    }
    if j == (i + 7) % n {
        return chord;
    }
    i64::MAX
}

/// The weights of the steps from i, in the order of their ends. Linear in them.
fn push_weights(values: &mut Vec<i64>, n: u32, chord: i64, i: u32) -> Result<(), OutOfMemory>
    requires vertex { i < n }
    requires most { n ≤ 2048 }
    ensures { OnOk result ((seed : ℕ) → chord ≡ pos (5 + seed % 5)
        → values.new.items ≡ values.old.items ++ map (weight n seed i) (range_with_len 0 n)) }
{
    for j in 0..n {
        values.push(weight(n, chord, i, j))?;
    }
    Ok(())
}

/// The weights of all steps, row by row. Linear in them.
fn weights(alloc: Global, n: u32, seed: u64) -> Result<Vec<i64>, OutOfMemory>
    requires most { n ≤ 2048 }
    ensures { IfOk result (λ values. values.items ≡ weights n seed) }
{
    let chord = 5 + (seed % 5) as i64;
    let mut values = Vec::new(alloc);
    for i in 0..n {
        push_weights(&mut values, n, chord, i)?;
    }
    Ok(values)
}

impl Draft {
    /// `task fwdiag D[k,k]:RW`. Constant time.
    fn diagonal(&mut self, alloc: Global, k: u32) -> Result<(), OutOfMemory>
        requires roots { self.old.roots.names ≡ paths_names }
        requires few { length self.old.statements < 1048576 }
        ensures tells { OnOk result (Tells self.old self.new (diagonal k ∷ [])) }
    {
        let operands = [tile!(D[k, k]: RW)];
        self.say(codelet_task(alloc, Kernel::FwDiag, operands)?)?;
        Ok(())
    }

    /// `task fwrow D[k,k]:R D[k,j]:RW`, unless that is the diagonal tile. Constant time.
    fn beside(&mut self, alloc: Global, k: u32, j: u32) -> Result<(), OutOfMemory>
        requires roots { self.old.roots.names ≡ paths_names }
        requires few { length self.old.statements < 1048576 }
        ensures tells { OnOk result (Tells self.old self.new (unless_same j k (beside k j ∷ []))) }
        ensures few { OnOk result (length self.new.statements ≤ length self.old.statements + 1) }
    {
        if j == k {
            return Ok(());
        }
        let operands = [tile!(D[k, k]: R), tile!(D[k, j]: RW)];
        self.say(codelet_task(alloc, Kernel::FwRow, operands)?)?;
        Ok(())
    }

    /// `task fwcol D[k,k]:R D[i,k]:RW`, unless that is the diagonal tile. Constant time.
    fn below(&mut self, alloc: Global, k: u32, i: u32) -> Result<(), OutOfMemory>
        requires roots { self.old.roots.names ≡ paths_names }
        requires few { length self.old.statements < 1048576 }
        ensures tells { OnOk result (Tells self.old self.new (unless_same i k (below k i ∷ []))) }
        ensures few { OnOk result (length self.new.statements ≤ length self.old.statements + 1) }
    {
        if i == k {
            return Ok(());
        }
        let operands = [tile!(D[k, k]: R), tile!(D[i, k]: RW)];
        self.say(codelet_task(alloc, Kernel::FwCol, operands)?)?;
        Ok(())
    }

    /// `task mingemm D[i,k]:R D[k,j]:R D[i,j]:RW`, unless that tile stands in the block's column. Constant time.
    fn apart(&mut self, alloc: Global, k: u32, i: u32, j: u32) -> Result<(), OutOfMemory>
        requires roots { self.old.roots.names ≡ paths_names }
        requires few { length self.old.statements < 1048576 }
        ensures tells { OnOk result (Tells self.old self.new (unless_same j k (apart k i j ∷ []))) }
        ensures few { OnOk result (length self.new.statements ≤ length self.old.statements + 1) }
    {
        if j == k {
            return Ok(());
        }
        let operands = [tile!(D[i, k]: R), tile!(D[k, j]: R), tile!(D[i, j]: RW)];
        self.say(codelet_task(alloc, Kernel::MinGemm, operands)?)?;
        Ok(())
    }

    /// The tasks of the block's row. Linear in them.
    fn besides(&mut self, alloc: Global, p: u32, k: u32) -> Result<(), OutOfMemory>
        requires parts { p ≤ 48 }
        requires roots { self.old.roots.names ≡ paths_names }
        requires few { length self.old.statements + 48 ≤ 1048576 }
        ensures tells { OnOk result (Tells self.old self.new (map (beside k) (others p k))) }
        ensures few { OnOk result (length self.new.statements ≤ length self.old.statements + 48) }
    {
        for j in 0..p {
            self.beside(alloc, k, j)?;
        }
        Ok(())
    }

    /// The tasks of the block's column. Linear in them.
    fn belows(&mut self, alloc: Global, p: u32, k: u32) -> Result<(), OutOfMemory>
        requires parts { p ≤ 48 }
        requires roots { self.old.roots.names ≡ paths_names }
        requires few { length self.old.statements + 48 ≤ 1048576 }
        ensures tells { OnOk result (Tells self.old self.new (map (below k) (others p k))) }
        ensures few { OnOk result (length self.new.statements ≤ length self.old.statements + 48) }
    {
        for i in 0..p {
            self.below(alloc, k, i)?;
        }
        Ok(())
    }

    /// The tasks of the other tiles of a row, unless that is the block's. Linear in them.
    fn aparts_in_row(&mut self, alloc: Global, p: u32, k: u32, i: u32) -> Result<(), OutOfMemory>
        requires parts { p ≤ 48 }
        requires roots { self.old.roots.names ≡ paths_names }
        requires few { length self.old.statements + 48 ≤ 1048576 }
        ensures tells { OnOk result (Tells self.old self.new
            (unless_same i k (aparts_in_row p k i))) }
        ensures few { OnOk result (length self.new.statements ≤ length self.old.statements + 48) }
    {
        if i == k {
            return Ok(());
        }
        for j in 0..p {
            self.apart(alloc, k, i, j)?;
        }
        Ok(())
    }

    /// The tasks of the other tiles. Linear in them.
    fn aparts(&mut self, alloc: Global, p: u32, k: u32) -> Result<(), OutOfMemory>
        requires parts { p ≤ 48 }
        requires roots { self.old.roots.names ≡ paths_names }
        requires few { length self.old.statements + 2304 ≤ 1048576 }
        ensures tells { OnOk result (Tells self.old self.new
            (flat_map (aparts_in_row p k) (others p k))) }
        ensures few { OnOk result (length self.new.statements ≤ length self.old.statements + 2304) }
    {
        for i in 0..p {
            self.aparts_in_row(alloc, p, k, i)?;
        }
        Ok(())
    }

    /// The tasks of one block. Linear in them.
    fn walk_step(&mut self, alloc: Global, p: u32, k: u32) -> Result<(), OutOfMemory>
        requires parts { p ≤ 48 }
        requires roots { self.old.roots.names ≡ paths_names }
        requires few { length self.old.statements + 2401 ≤ 1048576 }
        ensures tells { OnOk result (Tells self.old self.new (walk_step p k)) }
        ensures few { OnOk result (length self.new.statements ≤ length self.old.statements + 2401) }
    {
        self.diagonal(alloc, k)?;
        self.besides(alloc, p, k)?;
        self.belows(alloc, p, k)?;
        self.aparts(alloc, p, k)?;
        Ok(())
    }

    /// The tasks of all blocks. Linear in them.
    fn walk_steps(&mut self, alloc: Global, p: u32) -> Result<(), OutOfMemory>
        requires parts { p ≤ 48 }
        requires roots { self.old.roots.names ≡ paths_names }
        requires few { length self.old.statements + 115248 ≤ 1048576 }
        ensures tells { OnOk result (Tells self.old self.new (walk_steps p)) }
        ensures few { OnOk result (length self.new.statements
            ≤ length self.old.statements + 115248) }
    {
        for k in 0..p {
            self.walk_step(alloc, p, k)?;
        }
        Ok(())
    }
}

/// The registration of D with the weights. Linear in them.
fn ring(alloc: Global, n: u32, p: u32, seed: u64) -> Result<Draft, OutOfMemory>
    requires most { n ≤ 2048 }
    ensures names { IfOk result (λ d. d.roots.names ≡ paths_names) }
    ensures long { IfOk result (λ d. length d.statements ≡ 1) }
    ensures seen { IfOk result (λ d. seen_from d.roots 0 d.statements
        ≡ numbered first_line (matrix_act name_D n p (Values (weights n seed)) ∷ [])) }
    ensures numbered { IfOk result IsNumberedSoFar }
{
    let mut roots = Roots::none(alloc);
    roots.add(alloc, b"D", square_matrix(n, p))?;
    let mut draft = Draft::of(alloc, roots);
    let values = weights(alloc, n, seed)?;
    draft.say(Act::Register(Init::Values(Sequence::of(values))))?;
    Ok(draft)
}

/// The job that computes the lengths of shortest walks on a ring of n vertices with chords, in tiles of at most `tile` by `tile`,
/// and prints them. Linear in the weights and the tasks.
pub fn paths(alloc: Global, n: u32, tile: u32, seed: u64) -> Result<Job, OutOfMemory>
    requires { IsSize n tile seed }
    ensures unset { IfOk result (λ job. job.settings ≡ unset) }
    ensures statements { IfOk result (λ job. statements_of job ≡ paths_statements n tile seed) }
    ensures numbered { IfOk result (λ job. IsNumbered job.roots job.statements) }

    // What it prints.
    ensures shortest { IfOk result (λ job.
        PrintsShortest name_D n (weight n seed) (statements_of job)) }
{
    let p = part_count(n, tile);
    let mut draft = ring(alloc, n, p, seed)?;
    draft.walk_steps(alloc, p)?;
    draft.say(Act::Print(D))?;
    Ok(draft.into_job(alloc))
}
