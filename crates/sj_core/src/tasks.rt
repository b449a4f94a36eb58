//! The tasks of a program: what is looked up, and what is known of their arguments.

ghost use Rattle.std.specs.Prelude.{◌≡◌, ◌<◌, All, FitsSigned, length};
ghost use Rattle.std.specs.Int.{w64};
ghost use Rattle.sj_core.specs.Program.{task_of};

use sj_base::ids::Task;
use sj_base::mode::Access;
use sj_base::program::{Lowered, Program};

/// A task of a program. Constant time.
pub fn task_at(program: &Program, t: Task) -> &Lowered
    requires { t.0 < length program.now.tasks }
    ensures { result.now ≡ task_of program.now t }
{
    &program.tasks.items()[t.0 as usize]
}

/// The operands of a task. Constant time.
pub fn accesses_of(program: &Program, t: Task) -> &[Access]
    requires { t.0 < length program.now.tasks }
    ensures { result.now ≡ (task_of program.now t).accesses }
{
    task_at(program, t).accesses.items()
}

/// The arguments of a task are in their type. Linear in them, to no effect: only what is read is known to fit.
fn args_fit(args: &[i64])
    ensures { All (FitsSigned w64) args.now }
{
    for arg in args {
        let _value = *arg;
    }
}

/// The arguments of all tasks are in their type. Linear in them, to no effect.
pub fn arguments_fit(program: &Program)
    ensures { All (λ l. All (FitsSigned w64) l.args) program.now.tasks }
{
    for task in program.tasks.items() {
        args_fit(task.args.items());
    }
}
