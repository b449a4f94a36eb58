//! The tasks of a party.

ghost use Rattle.std.specs.Prelude.{◌≡◌, ◌++◌, ◌∷◌, [], IfOk, OnOk, OnErr};

use sj_base::ids::Task;
use sj_base::memory::OutOfMemory;
use sj_base::sequence::Sequence;
use std::alloc::Global;
use std::marker::Model;
use std::slice;

#[derive(Drop)]
enum Tasks {
    Single(Task),
    Several(Sequence<Task>),
}

/// The tasks of a party, in order. A task by itself takes no memory of its own.
#[derive(Drop)]
pub struct Crew {
    tasks: Tasks,
}

impl Model for Crew {
    ghost use Rattle.std.specs.Prelude.{List};
    ghost use Rattle.sj_base.specs.declared.ids.Task.{Task};
    ghost use Rattle.sj_deps.specs.Crews.{crew_tasks};

    ghost Value = { List Task };

    ghost view = { λ crew. crew_tasks crew.tasks };
}

impl Crew {
    /// A task by itself.
    pub fn of(task: Task) -> Crew
        ensures { result ≡ task ∷ [] }
    {
        Crew {
            tasks: Tasks::Single(task),
        }
    }

    /// The tasks, in constant time.
    pub fn tasks(&self) -> &[Task]
        ensures { result.now ≡ self.now }
    {
        match &self.tasks {
            Tasks::Single(task) => slice::from_ref(task),
            Tasks::Several(tasks) => tasks.items(),
        }
    }

    /// Appends a task. Constant time, amortised.
    pub fn push(&mut self, alloc: Global, task: Task) -> Result<(), OutOfMemory>
        ensures ok { OnOk result (self.new ≡ self.old ++ task ∷ []) }
        ensures err { OnErr result (self.new ≡ self.old) }
    {
        match &mut self.tasks {
            Tasks::Single(first) => {
                self.tasks = Tasks::Several(pair(alloc, *first, task)?);
                Ok(())
            }
            Tasks::Several(tasks) => tasks.push(task),
        }
    }
}

fn pair(alloc: Global, first: Task, second: Task) -> Result<Sequence<Task>, OutOfMemory>
    ensures { IfOk result (λ tasks. tasks ≡ first ∷ second ∷ []) }
{
    let mut tasks = Sequence::empty(alloc);
    tasks.push(first)?;
    tasks.push(second)?;
    Ok(tasks)
}
