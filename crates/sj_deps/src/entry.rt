//! Entering the accesses of a program: a chain for each cell, and the parties that stand in the chains.

ghost use Rattle.std.specs.Prelude.{◌≡◌, ◌+◌, ◌<◌, ◌≤◌, ◌++◌, ◌∷◌, ℕ, [], List, All, Contains, true, IfOk, IfSome, IsTrue, OnOk, length, map, replicate};
ghost use Rattle.std.specs.List.{range_with_len, slice_index_or};
ghost use Rattle.sj_base.specs.declared.program.Program.{Program as Lowered};
ghost use Rattle.sj_base.specs.Ids.{task};
ghost use Rattle.sj_deps.specs.declared.manner.Usage.{Usage};
ghost use Rattle.sj_deps.specs.Conflict.{HasDependencies, Uses, usages_of, usage, copies_of, first_copy};
ghost use Rattle.sj_deps.specs.Chains.{no_chain, party_at};
ghost use Rattle.sj_deps.specs.Counts.{Entering, Begun, Built, HoldsAccesses, Adds, Appends, JoinsParty, Opens, EndsInPhase, IsOpen, ends_with_party};

use crate::chain::{Chain, Member};
use crate::crew::Crew;
use crate::manner::Manner;
use sj_base::few::Few;
use sj_base::ids::{Cell, Task};
use sj_base::memory::OutOfMemory;
use sj_base::mode::{Access, Mode};
use sj_base::program::{Codelet, Program};
use std::alloc::Global;

/// The accesses of a program, none of them finished. Party `t` is task `t` by itself; the later parties are
/// the phases of reductions.
#[derive(Drop)]
pub struct Entered {
    /// The accesses to each cell.
    pub chains: Vec<Chain>,
    /// The cells of each party.
    pub cells: Vec<Few<usize>>,
    /// The tasks of each party.
    pub tasks: Vec<Crew>,
    /// How many accesses of each party wait for earlier ones.
    pub waits: Vec<usize>,
    /// Which parties aren't the last in each of their chains, so that no task joins them any more.
    pub is_closed: Vec<bool>,
}

/// Enters the accesses of all tasks, in order. Linear in the accesses, and in the workers for each phase.
pub fn enter_tasks(alloc: Global, program: &Program) -> Result<Entered, OutOfMemory>
    requires { HasDependencies program.now }
    ensures { IfOk result (Built program.now) }
{
    let count = program.tasks.len();
    let mut entered = nothing_entered(alloc, program.cells.len(), count)?;
    for t in 0..count {
        enter_task(alloc, &mut entered, program, t)?;
    }
    Ok(entered)
}

/// Empty chains, and each task as a party.
fn nothing_entered(alloc: Global, cells: usize, count: usize) -> Result<Entered, OutOfMemory>
    requires { count ≤ 4194304 }
    ensures chains { IfOk result (λ e. e.chains.items ≡ replicate cells no_chain) }
    ensures cells { IfOk result (λ e. e.cells.items ≡ replicate count []) }
    ensures tasks { IfOk result (λ e. e.tasks.items
        ≡ map (λ t. task t ∷ []) (range_with_len 0 count)) }
    ensures waits { IfOk result (λ e. e.waits.items ≡ replicate count 0) }
    ensures flags { IfOk result (λ e. length e.is_closed.items ≡ count) }
{
    Ok(Entered {
        chains: empty_chains(alloc, cells)?,
        cells: empty_lists(alloc, count)?,
        tasks: single_tasks(alloc, count)?,
        waits: vec![in alloc; 0usize; count]?,
        is_closed: vec![in alloc; false; count]?,
    })
}

fn empty_chains(alloc: Global, count: usize) -> Result<Vec<Chain>, OutOfMemory>
    ensures { IfOk result (λ v. v.items ≡ replicate count no_chain) }
{
    let mut chains = Vec::with_capacity(alloc, count)?;
    for _ in 0..count {
        chains.push(Chain::empty(alloc))?;
    }
    Ok(chains)
}

/// So many empty lists. Linear in the count.
pub fn empty_lists(alloc: Global, count: usize) -> Result<Vec<Few<usize>>, OutOfMemory>
    ensures { IfOk result (λ v. v.items ≡ replicate count []) }
{
    let mut lists = Vec::with_capacity(alloc, count)?;
    for _ in 0..count {
        lists.push(Few::empty(alloc))?;
    }
    Ok(lists)
}

/// A task by itself.
fn single(t: usize) -> Crew
    requires { t ≤ 4194304 }
    ensures { result ≡ task t ∷ [] }
{
    Crew::of(Task(t as u32))
}

fn single_tasks(alloc: Global, count: usize) -> Result<Vec<Crew>, OutOfMemory>
    requires { count ≤ 4194304 }
    ensures { IfOk result (λ v. v.items ≡ map (λ t. task t ∷ []) (range_with_len 0 count)) }
{
    let mut lists = Vec::with_capacity(alloc, count)?;
    for t in 0..count {
        lists.push(single(t))?;
    }
    Ok(lists)
}

/// Enters the accesses of one task, after those of all tasks before it.
fn enter_task(
    alloc: Global,
    entered: &mut Entered,
    program: &Program,
    t: usize,
) -> Result<(), OutOfMemory>
    requires program { HasDependencies program.now }
    requires task { t < length program.now.tasks }
    requires begun { Begun entered.old }
    requires entered { Entering program.now t [] entered.old }
    ensures begun { OnOk result (Begun entered.new) }
    ensures entered { OnOk result (Entering program.now (t + 1) [] entered.new) }
{
    let task = &program.tasks.items()[t];
    for access in task.accesses.items() {
        enter_access(alloc, entered, program, task.codelet, t, *access)?;
    }
    Ok(())
}

/// Enters what an operand of a task counts as.
fn enter_access(
    alloc: Global,
    entered: &mut Entered,
    program: &Program,
    codelet: Codelet,
    t: usize,
    access: Access,
) -> Result<(), OutOfMemory>
    requires program { HasDependencies program.now }
    requires task { t < length program.now.tasks }
    requires uses { (c : ℕ) (m : Manner) →
        Contains (usages_of program.now codelet access) (usage m c) →
        Uses program.now t c m }
    requires holds { HoldsAccesses program.now entered.old.chains.items entered.old.cells.items
        entered.old.tasks.items }
    requires begun { Begun entered.old }
    ensures begun { OnOk result (Begun entered.new) }
    ensures entered { OnOk result ((us : List Usage) → Entering program.now t us entered.old →
        Entering program.now t (us ++ usages_of program.now codelet access) entered.new) }
{
    let cell = access.cell.0 as usize;
    match access.mode {
        Mode::R => enter(entered, t, Manner::Read, cell),
        Mode::W => enter(entered, t, Manner::Write, cell),
        Mode::RW => enter(entered, t, Manner::Write, cell),
        Mode::Scratch => Ok(()),
        Mode::Redux => enter_contribution(alloc, entered, program, t, access.cell),
        Mode::Commute => enter(entered, t, Manner::Commute(codelet), cell),
    }
}

/// Enters an access of a task by itself, unless the task stands at the end of the cell's chain already.
fn enter(entered: &mut Entered, t: usize, manner: Manner, cell: usize) -> Result<(), OutOfMemory>
    requires cell { cell < length entered.old.chains.items }
    requires task { t < length entered.old.tasks.items }
    requires listed { t < length entered.old.cells.items }
    requires begun { Begun entered.old }
    ensures begun { OnOk result (Begun entered.new) }
    ensures entered { OnOk result ((P : Lowered) (us : List Usage) → HasDependencies P →
        t < length P.tasks → Uses P t cell manner → ¬ (manner ≡ Manner.Contribute) →
        Entering P t us entered.old → Entering P t (us ++ usage manner cell ∷ []) entered.new) }
{
    if ends_with_party(&entered.chains[cell], t) {
        return Ok(());
    }
    append(entered, Member { party: t, manner }, cell, 1)
}

/// Whether the last access is one of a party.
fn ends_with_party(chain: &Chain, party: usize) -> bool
    ensures { result ≡ ends_with_party chain.now.members party }
{
    match chain.members.items().last() {
        Some(last) => last.party == party,
        None => false,
    }
}

/// The first partial copy of a cell.
pub fn first_copy(program: &Program, cell: Cell) -> Option<Cell>
    ensures { result ≡ first_copy program.now cell.0 }
{
    program.cells.items().get(cell.0 as usize)?.partials
}

/// Enters a task's contribution to a cell, which is an access to each of its partial copies.
fn enter_contribution(
    alloc: Global,
    entered: &mut Entered,
    program: &Program,
    t: usize,
    cell: Cell,
) -> Result<(), OutOfMemory>
    requires program { HasDependencies program.now }
    requires task { t < length program.now.tasks }
    requires uses { (c : ℕ) (m : Manner) →
        Contains (map (usage Manner.Contribute) (copies_of program.now cell.0)) (usage m c) →
        Uses program.now t c m }
    requires cells { length entered.old.chains.items ≡ length program.now.cells }
    requires begun { Begun entered.old }
    requires listed { length entered.old.cells.items ≡ length entered.old.tasks.items }
    ensures begun { OnOk result (Begun entered.new) }
    ensures entered { OnOk result ((us : List Usage) → Entering program.now t us entered.old →
        Entering program.now t (us ++ map (usage Manner.Contribute) (copies_of program.now cell.0))
        entered.new) }
{
    let count = program.workers as usize;
    match first_copy(program, cell) {
        Some(first) if count > 0 => contribute(alloc, entered, t, first.0 as usize, count),
        _ => Ok(()),
    }
}

/// Enters a task's contribution to so many copies: it joins the phase that stands at the end of all their
/// chains, or opens one.
fn contribute(
    alloc: Global,
    entered: &mut Entered,
    t: usize,
    first: usize,
    count: usize,
) -> Result<(), OutOfMemory>
    requires small { t ≤ 4194304 }
    requires some { 0 < count }
    requires within { first + count ≤ length entered.old.chains.items }
    requires begun { Begun entered.old }
    requires listed { length entered.old.cells.items ≡ length entered.old.tasks.items }
    ensures begun { OnOk result (Begun entered.new) }
    ensures entered { OnOk result ((P : Lowered) (us : List Usage) → HasDependencies P →
        t < length P.tasks → P.workers ≡ count →
        ((c : ℕ) → first ≤ c → c < first + count → Uses P t c Manner.Contribute) →
        Entering P t us entered.old →
        Entering P t (us ++ map (usage Manner.Contribute) (range_with_len first count))
        entered.new) }
{
    match open_phase(entered, first) {
        Some(party) => join(alloc, entered, party, t),
        None => open(alloc, entered, t, first, count),
    }
}

/// The phase that begins at a first copy, where it stands at the end of all its copies' chains.
fn open_phase(entered: &Entered, first: usize) -> Option<usize>
    requires cell { first < length entered.now.chains.items }
    requires begun { Begun entered.now }
    requires listed { length entered.now.cells.items ≡ length entered.now.tasks.items }
    ensures { IfSome result (IsOpen entered.now first) }
{
    let party = last_phase(&entered.chains[first])?;
    let is_open = !entered.is_closed[party];
    let is_first = begins_with(entered.cells[party].items(), first);
    if is_open && is_first {
        Some(party)
    } else {
        None
    }
}

/// The phase at the end of a chain.
fn last_phase(chain: &Chain) -> Option<usize>
    ensures { IfSome result (EndsInPhase chain.now.members) }
{
    let last = chain.members.items().last()?;
    match last.manner {
        Manner::Contribute => Some(last.party),
        _ => None,
    }
}

fn begins_with(cells: &[usize], first: usize) -> bool
    ensures some { IsTrue result → 0 < length cells.now }
    ensures first { IsTrue result → slice_index_or cells.now 0 0 ≡ first }
{
    match cells.first() {
        Some(cell) => *cell == first,
        None => false,
    }
}

/// One task more in a phase. Constant time, amortised.
fn join(alloc: Global, entered: &mut Entered, party: usize, t: usize) -> Result<(), OutOfMemory>
    requires small { t ≤ 4194304 }
    requires party { party < length entered.old.tasks.items }
    requires begun { Begun entered.old }
    ensures begun { OnOk result (Begun entered.new) }
    ensures joins { OnOk result (JoinsParty entered.old entered.new party t) }
{
    entered.tasks[party].push(alloc, Task(t as u32))?;
    Ok(())
}

/// Opens a phase with one task, at the end of the chains of so many copies. Linear in the copies.
fn open(
    alloc: Global,
    entered: &mut Entered,
    t: usize,
    first: usize,
    count: usize,
) -> Result<(), OutOfMemory>
    requires small { t ≤ 4194304 }
    requires within { first + count ≤ length entered.old.chains.items }
    requires begun { Begun entered.old }
    requires listed { length entered.old.cells.items ≡ length entered.old.tasks.items }
    ensures begun { OnOk result (Begun entered.new) }
    ensures opens { OnOk result (Opens entered.old entered.new t first count) }
{
    let party = entered.tasks.len();
    add_party(alloc, entered, t)?;
    let member = Member {
        party,
        manner: Manner::Contribute,
    };
    append(entered, member, first, count)
}

/// A party of one task more, with no access.
fn add_party(alloc: Global, entered: &mut Entered, t: usize) -> Result<(), OutOfMemory>
    requires small { t ≤ 4194304 }
    requires begun { Begun entered.old }
    ensures begun { OnOk result (Begun entered.new) }
    ensures adds { OnOk result (Adds entered.old entered.new t) }
{
    entered.cells.push(Few::empty(alloc))?;
    entered.tasks.push(single(t))?;
    entered.waits.push(0)?;
    entered.is_closed.push(false)?;
    Ok(())
}

/// Appends a party's accesses to the cells from `first` on. Linear in their count.
fn append(
    entered: &mut Entered,
    member: Member,
    first: usize,
    count: usize,
) -> Result<(), OutOfMemory>
    requires within { first + count ≤ length entered.old.chains.items }
    requires party { member.party < length entered.old.tasks.items }
    requires listed { member.party < length entered.old.cells.items }
    requires begun { Begun entered.old }
    ensures begun { OnOk result (Begun entered.new) }
    ensures appended { OnOk result (Appends entered.old entered.new member first count) }
{
    for n in 0..count {
        push(entered, member, first + n)?;
    }
    Ok(())
}

/// Appends a party's access to a cell's chain, and closes the party that was the last there.
fn push(entered: &mut Entered, member: Member, cell: usize) -> Result<(), OutOfMemory>
    requires cell { cell < length entered.old.chains.items }
    requires party { member.party < length entered.old.tasks.items }
    requires listed { member.party < length entered.old.cells.items }
    requires begun { Begun entered.old }
    ensures begun { OnOk result (Begun entered.new) }
    ensures appended { OnOk result (Appends entered.old entered.new member cell 1) }
{
    close_last(&entered.chains[cell], &mut entered.is_closed);
    let at_once = entered.chains[cell].push(member)?;
    entered.cells[member.party].push(cell)?;
    if !at_once {
        let more = entered.waits[member.party]
            .checked_add(1)
            .ok_or(OutOfMemory)?;
        entered.waits[member.party] = more;
    }
    Ok(())
}

/// Closes the last party of a chain.
fn close_last(chain: &Chain, is_closed: &mut Vec<bool>)
    requires { All (λ m. m.party < length is_closed.old.items) chain.now.members }
    ensures len { length is_closed.new.items ≡ length is_closed.old.items }
    ensures kept { (n : ℕ) → slice_index_or is_closed.old.items n true ≡ true →
        slice_index_or is_closed.new.items n true ≡ true }
    ensures last { (p : ℕ) → p + 1 ≡ length chain.now.members →
        slice_index_or is_closed.new.items (party_at chain.now.members p) true ≡ true }
{
    if let Some(last) = chain.members.items().last() {
        is_closed[last.party] = true;
    }
}
