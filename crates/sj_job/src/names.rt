//! What the reader knows of a job's names, line by line.

ghost use Rattle.std.specs.Prelude.{◌≡◌, ◌+◌, ◌<◌, ◌^◌, ℕ, Bool, None, All, length, OnOk, slice_set};
ghost use Rattle.sj_codelet.specs.declared.kernel.Kernel.{Kernel};
ghost use Rattle.sj_job.specs.Names.{HasStandings, IsEven, IsPlaceIn, after_write, after_writes, child_written, first_standing, invalidated, is_all, is_none, is_name_ended, plan_in, replanned, reduced, reduction_in, scope_in, standing_of};
ghost use Rattle.sj_meaning.specs.State.{JobState, start};
ghost use Rattle.sj_meaning.specs.Meaning.{register, run_task, invalidate, plan, reduce, unregister};
ghost use Rattle.sj_meaning.specs.Table.{name_of, root_in, with_root, IsRoot};
ghost use Rattle.sj_job.specs.Track.{IsSmallPlan};
ghost use Rattle.sj_meaning.specs.View.{task_seen, registration};
ghost use Rattle.sj_job.specs.Sees.{Sees};
ghost use Rattle.sj_meaning.specs.Sound.{IsSoundPlan, IsSoundTask, IsSoundRegistration};
ghost use Rattle.sj_job.specs.Judge.{is_taken, is_ended};

use crate::track::Tracked;
use sj_base::ids::Root;
use sj_base::memory::OutOfMemory;
use sj_base::mode::Reduction;
use sj_meaning::job::{Init, Operand, RootInfo, TaskLine};
use sj_meaning::roots::Roots;
use sj_plan::parts::Parts;
use std::alloc::Global;

/// How it stands with a root: which children of its active plan have a value, and its reduction; or that its name is ended.
#[derive(Drop)]
pub enum RootStanding {
    Live {
        track: Tracked,
        reduction: Option<Reduction>,
    },
    Ended,
}

impl RootStanding {
    /// Whether the name is ended. Constant time, as are all calls but `write`.
    pub fn is_over(&self) -> bool
        ensures { result ≡ is_name_ended self.now }
    {
        match self {
            RootStanding::Live { .. } => false,
            RootStanding::Ended => true,
        }
    }

    /// Whether the root isn't ended, and all its elements have a value.
    pub fn is_all(&self) -> bool
        ensures { result ≡ is_all self.now }
    {
        match self {
            RootStanding::Live { track, .. } => track.is_all(),
            RootStanding::Ended => false,
        }
    }

    /// Whether the root isn't ended, and none of its elements has a value.
    pub fn is_none(&self) -> bool
        ensures { result ≡ is_none self.now }
    {
        match self {
            RootStanding::Live { track, .. } => track.is_none(),
            RootStanding::Ended => false,
        }
    }

    /// The reduction of the root, where it isn't ended and has one.
    pub fn reduction(&self) -> Option<Reduction>
        ensures { result ≡ reduction_in self.now }
    {
        match self {
            RootStanding::Live { reduction, .. } => *reduction,
            RootStanding::Ended => None,
        }
    }

    /// The root has this reduction from now on.
    fn reduce(&mut self, by: Reduction)
        ensures { self.new ≡ reduced by self.old }
    {
        match self {
            RootStanding::Live { reduction, .. } => *reduction = Some(by),
            RootStanding::Ended => {}
        }
    }

    /// Another plan is active from now on.
    fn plan(&mut self, parts: Parts)
        requires plan { IsSmallPlan parts }
        requires even { IsEven self.old }
        ensures { self.new ≡ replanned parts self.old }
    {
        match self {
            RootStanding::Live { track, .. } => track.plan(parts),
            RootStanding::Ended => {}
        }
    }

    /// No element has a value from now on.
    fn invalidate(&mut self)
        ensures { self.new ≡ invalidated self.old }
    {
        match self {
            RootStanding::Live { track, .. } => track.invalidate(),
            RootStanding::Ended => {}
        }
    }

    /// A child has a value from now on.
    fn write(&mut self, alloc: Global, place: (u32, u32)) -> Result<(), OutOfMemory>
        requires { IsPlaceIn (plan_in self.old) place }
        ensures { OnOk result (self.new ≡ child_written place self.old) }
    {
        match self {
            RootStanding::Live { track, .. } => track.write(alloc, place.0, place.1),
            RootStanding::Ended => Ok(()),
        }
    }
}

/// How it stands with a root from its registration on.
fn first_standing(parts: Parts, init: &Init) -> RootStanding
    requires { IsSmallPlan parts }
    ensures { result ≡ first_standing parts init.now }
{
    let valued = match init {
        Init::Values(_) | Init::Fill(_, _) => true,
        Init::Nothing => false,
    };
    RootStanding::Live {
        track: Tracked::even(parts, valued),
        reduction: None,
    }
}

/// How many statements were read, the roots that they registered, and how it stands with each.
#[derive(Drop)]
pub struct Names {
    pub statements: u64,
    pub roots: Roots,
    pub standings: Vec<RootStanding>,
}

impl Names {
    /// No name, before the first statement. Constant time.
    pub fn none(alloc: Global) -> Names
        ensures { Sees result 0 start }
    {
        Names {
            statements: 0,
            roots: Roots::none(alloc),
            standings: Vec::new(alloc),
        }
    }

    /// The root of a name, ended or not. Linear in the name, as are the next two.
    pub fn find(&self, name: &[u8]) -> Option<Root>
        ensures { result ≡ root_in self.now.roots name.now }
    {
        self.roots.find(name)
    }

    /// Whether a name is registered, and not ended.
    pub fn is_taken(&self, name: &[u8]) -> bool
        requires { HasStandings self.now }
        ensures { result ≡ is_taken (scope_in self.now) name.now }
    {
        match self.find(name) {
            Some(root) => !self.standing(root).is_over(),
            None => false,
        }
    }

    /// Whether a name was ended.
    pub fn is_ended(&self, name: &[u8]) -> bool
        requires { HasStandings self.now }
        ensures { result ≡ is_ended (scope_in self.now) name.now }
    {
        match self.find(name) {
            Some(root) => self.standing(root).is_over(),
            None => false,
        }
    }

    /// How it stands with a root. Constant time.
    pub fn standing(&self, root: Root) -> &RootStanding
        requires counted { HasStandings self.now }
        requires root { root.0 < length self.now.roots.names }
        ensures { result.now ≡ standing_of self.now root }
    {
        &self.standings[root.0 as usize]
    }

    /// Notes a registration. Linear in the name.
    pub fn register(
        &mut self,
        alloc: Global,
        name: &[u8],
        info: RootInfo,
        init: &Init,
    ) -> Result<(), OutOfMemory>
        requires room { self.old.statements + 1 < 2 ^ 64 }
        requires fresh { root_in self.old.roots name.now ≡ None }
        requires few { length self.old.roots.names < 4096 }
        requires plan { IsSmallPlan info.parts }
        requires counted { HasStandings self.old }
        ensures whole { length self.old.roots.infos ≡ length self.old.roots.names }
        ensures roots { OnOk result (self.new.roots ≡ with_root name.now info self.old.roots) }
        ensures names { OnOk result ((n : ℕ) (S : JobState) → Sees self.old n S
            → IsSoundRegistration S (registration name.now info init.now)
            → Sees self.new (n + 1) (register (registration name.now info init.now) S)) }
    {
        self.roots.add(alloc, name, info)?;
        self.standings.push(first_standing(info.parts, init))?;
        self.statements += 1;
        Ok(())
    }

    /// Notes a print statement, which changes no root. Constant time, as are the next four.
    pub fn print(&mut self)
        requires { self.old.statements + 1 < 2 ^ 64 }
        ensures roots { self.new.roots ≡ self.old.roots }
        ensures names { (n : ℕ) (S : JobState) → Sees self.old n S → Sees self.new (n + 1) S }
    {
        self.statements += 1;
    }

    /// Notes that another plan is active from now on.
    pub fn plan(&mut self, root: Root, parts: Parts)
        requires room { self.old.statements + 1 < 2 ^ 64 }
        requires counted { HasStandings self.old }
        requires root { IsRoot self.old.roots root }
        requires plan { IsSmallPlan parts }
        requires even { IsEven (standing_of self.old root) }
        ensures roots { self.new.roots ≡ self.old.roots }
        ensures names { (n : ℕ) (S : JobState) → Sees self.old n S
            → IsSoundPlan S (name_of self.old.roots root) parts
            → Sees self.new (n + 1) (plan (name_of self.old.roots root) parts S) }
    {
        let place = root.0 as usize;
        let count = self.standings.len();
        prove!(place < count);
        self.standings[place].plan(parts);
        self.statements += 1;
    }

    /// Notes that a root has this reduction from now on.
    pub fn reduce(&mut self, root: Root, by: Reduction)
        requires room { self.old.statements + 1 < 2 ^ 64 }
        requires counted { HasStandings self.old }
        requires root { IsRoot self.old.roots root }
        ensures roots { self.new.roots ≡ self.old.roots }
        ensures names { (n : ℕ) (S : JobState) → Sees self.old n S
            → Sees self.new (n + 1) (reduce (name_of self.old.roots root) by S) }
    {
        let place = root.0 as usize;
        let count = self.standings.len();
        prove!(place < count);
        self.standings[place].reduce(by);
        self.statements += 1;
    }

    /// Notes that a root has no values from now on.
    pub fn invalidate(&mut self, root: Root)
        requires room { self.old.statements + 1 < 2 ^ 64 }
        requires counted { HasStandings self.old }
        requires root { IsRoot self.old.roots root }
        ensures roots { self.new.roots ≡ self.old.roots }
        ensures names { (n : ℕ) (S : JobState) → Sees self.old n S
            → Sees self.new (n + 1) (invalidate (name_of self.old.roots root) S) }
    {
        let place = root.0 as usize;
        let count = self.standings.len();
        prove!(place < count);
        self.standings[place].invalidate();
        self.statements += 1;
    }

    /// Notes that a name is ended.
    pub fn unregister(&mut self, root: Root)
        requires room { self.old.statements + 1 < 2 ^ 64 }
        requires counted { HasStandings self.old }
        requires root { IsRoot self.old.roots root }
        ensures roots { self.new.roots ≡ self.old.roots }
        ensures names { (n : ℕ) (S : JobState) → Sees self.old n S
            → Sees self.new (n + 1) (unregister (name_of self.old.roots root) S) }
    {
        let place = root.0 as usize;
        let count = self.standings.len();
        prove!(place < count);
        self.standings[place] = RootStanding::Ended;
        self.statements += 1;
    }

    /// Notes a task: the children that it writes have a value from now on. Linear in its operands, but that the first value of a
    /// root takes time linear in its children.
    pub fn run(&mut self, alloc: Global, task: &TaskLine) -> Result<(), OutOfMemory>
        requires room { self.old.statements + 1 < 2 ^ 64 }
        requires counted { HasStandings self.old }
        requires roots { All (λ o. IsRoot self.old.roots o.root) task.now.operands }
        requires places { All (λ o. IsPlaceIn (plan_in (standing_of self.old o.root)) o.place)
            task.now.operands }
        ensures roots { OnOk result (self.new.roots ≡ self.old.roots) }
        ensures names { OnOk result ((has : Kernel → Bool) (n : ℕ) (S : JobState)
            → Sees self.old n S
            → IsSoundTask has S (task_seen self.old.roots task.now)
            → Sees self.new (n + 1) (run_task (task_seen self.old.roots task.now) S)) }
    {
        self.write_all(alloc, task.operands.items())?;
        self.statements += 1;
        Ok(())
    }

    /// The written operands' children have a value from now on.
    fn write_all(&mut self, alloc: Global, operands: &[Operand]) -> Result<(), OutOfMemory>
        requires counted { HasStandings self.old }
        requires roots { All (λ o. IsRoot self.old.roots o.root) operands.now }
        requires places { All (λ o. IsPlaceIn (plan_in (standing_of self.old o.root)) o.place)
            operands.now }
        ensures count { OnOk result (self.new.statements ≡ self.old.statements) }
        ensures roots { OnOk result (self.new.roots ≡ self.old.roots) }
        ensures standings { OnOk result (self.new.standings.items
            ≡ after_writes operands.now self.old.standings.items) }
    {
        for operand in operands {
            self.write(alloc, operand)?;
        }
        Ok(())
    }

    /// The same of one operand.
    fn write(&mut self, alloc: Global, operand: &Operand) -> Result<(), OutOfMemory>
        requires counted { HasStandings self.old }
        requires root { IsRoot self.old.roots operand.now.root }
        requires place { IsPlaceIn (plan_in (standing_of self.old operand.now.root))
            operand.now.place }
        ensures count { OnOk result (self.new.statements ≡ self.old.statements) }
        ensures roots { OnOk result (self.new.roots ≡ self.old.roots) }
        ensures standings { OnOk result (self.new.standings.items
            ≡ after_write operand.now self.old.standings.items) }
    {
        if operand.is_written() {
            let place = operand.root.0 as usize;
            let count = self.standings.len();
            prove!(place < count);
            self.standings[place].write(alloc, operand.place)?;
        }
        Ok(())
    }
}
