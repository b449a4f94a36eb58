//! A job in the making.

ghost use Rattle.std.specs.Prelude.{◌≡◌, ◌+◌, ◌<◌, ◌∷◌, ◌++◌, [], length, OnOk};
ghost use Rattle.sj_apps.specs.Generated.{first_line};
ghost use Rattle.sj_meaning.specs.Settings.{unset};

use sj_base::ids::Line;
use sj_base::memory::OutOfMemory;
use sj_base::sequence::Sequence;
use sj_meaning::job::{Act, Job, Statement};
use sj_meaning::roots::Roots;
use sj_meaning::settings::Settings;
use std::alloc::Global;

/// The line of the first statement: in front of it are those of the header, the workers, the node and the policy.
pub const FIRST_LINE: u32 = 5;

/// `ROOT[i, j]: MODE`, as a job writes it: an operand of a task. Who calls it has `Operand` and `Mode` in scope.
macro_rules! tile {
    ($root:ident[$i:expr, $j:expr]: $mode:ident) => {
        Operand {
            root: $root,
            place: ($i, $j),
            mode: Mode::$mode,
        }
    };
}

pub(crate) use tile;

/// The roots of a job, and its statements so far.
#[derive(Drop)]
pub struct Draft {
    pub roots: Roots,
    pub statements: Sequence<Statement>,
}

impl Draft {
    /// No statement yet, for these roots. Takes no memory.
    pub fn of(alloc: Global, roots: Roots) -> Draft
        ensures roots { result.roots ≡ roots }
        ensures none { result.statements ≡ [] }
    {
        Draft {
            roots,
            statements: Sequence::empty(alloc),
        }
    }

    /// Says one act more, in the next line. Constant time, amortised.
    pub fn say(&mut self, act: Act) -> Result<(), OutOfMemory>
        requires few { length self.old.statements < 1048576 }
        ensures roots { OnOk result (self.new.roots ≡ self.old.roots) }
        ensures said { OnOk result (self.new.statements ≡ self.old.statements
            ++ record { line = record { 0 = length self.old.statements + first_line }; act = act }
            ∷ []) }
    {
        let line = Line(self.statements.len() as u32 + FIRST_LINE);
        self.statements.push(Statement { line, act })
    }

    /// The job, without settings. Takes no memory.
    pub fn into_job(self, alloc: Global) -> Job
        ensures { result ≡ record {
          settings = unset;
          roots = self.roots;
          statements = self.statements;
        } }
    {
        Job {
            settings: Settings::none(alloc),
            roots: self.roots,
            statements: self.statements,
        }
    }
}
