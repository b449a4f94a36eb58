//! An application: a problem, and the size at which its job is generated.

ghost use Rattle.std.specs.Prelude.{◌≡◌, true, IfOk};
ghost use Rattle.sj_meaning.specs.Settings.{unset};
ghost use Rattle.sj_meaning.specs.State.{start};
ghost use Rattle.sj_meaning.specs.View.{statements_of, IsNumbered};
ghost use Rattle.sj_job.specs.Well.{IsWell};
ghost use Rattle.sj_apps.specs.Application.{statements_for, IsSized};

use crate::paths::paths;
use crate::product::product;
use sj_base::memory::OutOfMemory;
use sj_meaning::job::Job;
use std::alloc::Global;

/// At most so many tiles make a column.
pub const MOST_PARTS: u32 = 48;

/// What a generated job computes.
#[derive(Clone, Copy, Debug, PartialEq, Eq)]
pub enum Problem {
    /// The product of two matrices.
    Product,
    /// The lengths of shortest walks on a ring with chords.
    Paths,
}

/// A problem for matrices of n by n in tiles of at most `tile` by `tile`, with numbers by a seed.
#[derive(Clone, Copy, Debug, PartialEq, Eq)]
pub struct Application {
    pub problem: Problem,
    pub n: u32,
    pub tile: u32,
    pub seed: u64,
}

impl Application {
    /// The job that computes its answer and prints it. Linear in the weights and the tasks.
    pub fn job(&self, alloc: Global) -> Result<Job, OutOfMemory>
        requires { IsSized self.now }
        ensures unset { IfOk result (λ job. job.settings ≡ unset) }
        ensures statements { IfOk result (λ job. statements_of job ≡ statements_for self.now) }
        ensures numbered { IfOk result (λ job. IsNumbered job.roots job.statements) }
        ensures well { IfOk result (λ job. IsWell (λ _. true) 0 start (statements_of job)) }
    {
        match self.problem {
            Problem::Product => product(alloc, self.n, self.tile, self.seed),
            Problem::Paths => paths(alloc, self.n, self.tile, self.seed),
        }
    }
}
