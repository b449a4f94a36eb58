//! The board: the state of a run, what each worker has in hand, the pool of ready tasks, and what was delivered.

ghost use Rattle.std.specs.Prelude.{◌≡◌, ◌↔◌, ◌+◌, ◌<◌, ◌≤◌, ◌++◌, [], All, IfErr, IfOk, IfSome, IsTrue, None, ◌⊎◌, Some, false, OnErr, OnOk, is_some, length, slice_set, true, ◌≢◌};
ghost use Rattle.std.specs.List.{list_any};
ghost use Rattle.sj_base.specs.declared.mode.Policy.TheVariants.{Prio};
ghost use Rattle.sj_base.specs.declared.trace.Event.TheVariants.{Claim, Drop, End, Move, Run};
ghost use Rattle.sj_codelet.specs.Kernel.{out};
ghost use Rattle.sj_core.specs.Needs.{AreFootprints, node_of};
ghost use Rattle.sj_core.specs.Step.{mover_of};
ghost use Rattle.sj_board.specs.Cause.{HasCause};
ghost use Rattle.sj_machine.specs.Planning.{HoldsCommutersAlone};
ghost use Rattle.sj_pool.specs.Pool.{task_for};
ghost use Rattle.sj_pool.specs.Queue.{has_fitting};
ghost use Rattle.sj_core.specs.Program.{task_of};
ghost use Rattle.sj_board.specs.Shares.{AreResultsFor, AreSharesFor};
ghost use Rattle.sj_core.specs.Legal.{IsComplete};
ghost use Rattle.sj_board.specs.Sound.{CanStart, IsWrittenOut};
ghost use Rattle.sj_board.specs.Sparing.{EventsSpareUsed, Spares, SparesMoved};
ghost use Rattle.sj_board.specs.Standing.{AllTell, CanHappen, IsMovingIn, IsMovingOut, IsShareOf, IsTileMoved, is_node, state};
ghost use Rattle.sj_board.specs.NextStep.{AnotherGoesOn};
ghost use Rattle.sj_board.specs.DiskUnits.{lent};
ghost use Rattle.sj_board.specs.Tiles.{array_in};
ghost use Rattle.sj_board.specs.Board.{EndsMoveOf, HasTakenReleased, HasTask, IsBusy, IsFree, IsIdle, IsOver, IsWorking, RunsNone, WasGiven, failed, first_fault, given_back, given_from, given_next, hand_in, hand_of, has_claimed, has_event, room_of, stopped, transfer_of};
ghost use Rattle.sj_board.specs.BoardSound.{IsSoundBoard};
ghost use Rattle.sj_board.specs.Claimable.{MayAsk};
ghost use Rattle.sj_board.specs.Delivered.{DeliversEach, gift_in, handed};
ghost use Rattle.sj_board.specs.Passing.{HasLost, IsFirstLeft, IsLeft, NoneIsLeft, is_passed};
ghost use Rattle.sj_board.specs.Refusal.{IsRefusal, WaitsForAnother};
ghost use Rattle.sj_board.specs.Releasing.{EndsTask};
ghost use Rattle.sj_board.specs.Preparing.{IsOpening};
ghost use Rattle.sj_board.specs.Todo.{CanBegin, HasDiskIn, IsCounted, IsMoverOf, IsTodoOf};
ghost use Rattle.sj_disk.specs.Lending.{NoneIsOut};
ghost use Rattle.sj_board.specs.Units.{AnotherHasUnit};
ghost use Rattle.sj_base.specs.Mode.{reads_of};

mod admitting;
mod lending;
mod taking_away;

use crate::delivered::Delivered;
use crate::fault::RunFault;
use crate::filling::put_ready;
use crate::gifts::Gifts;
use crate::gone::{none_gone, note_gone};
use crate::hand::Hand;
use crate::passing::take_behind;
use crate::preparing::prepare;
use crate::refusal::ClaimRefusal;
use crate::releasing::release;
use crate::run_state::{RunRefusal, RunState};
use crate::spent::Spent;
use crate::todo::Todo;
use sj_base::ids::{Cell, Place, Task, Worker};
use sj_base::keyed::Keyed;
use sj_base::memory::OutOfMemory;
use sj_base::mode::Policy;
use sj_base::program::{Machine, Program};
use sj_base::tile::Tile;
use sj_base::trace::Trace;
use sj_codelet::frame::Frame;
use sj_deps::deps::Deps;
use sj_disk::disk_set::DiskSet;
use sj_disk::lending_set::LendingSet;
use sj_edge::disk::Disk;
use sj_pool::pool::Pool;
use std::alloc::Global;
use std::marker::Model;
use std::sync::Arc;

/// A run with its workers: what each of them has in hand, which ready tasks are there to be taken, and the first fault.
///
/// Under the policy `prio` the board gives ready tasks out itself, by `next`. Under the others they wait in queues outside: the
/// board tells which have become ready, by `released`, and whether one may be claimed, by `may_claim`.
#[derive(Drop)]
pub struct Board<D: Disk> {
    run: RunState<D>,
    deps: Deps,
    /// The bytes that each task needs on its node.
    footprints: Vec<u64>,
    hands: Vec<Hand>,
    pool: Pool,
    fault: Option<RunFault>,
    /// A share of what each worker's running task is to hand over.
    gifts: Gifts,
    /// What was handed over, with room for all that is to come.
    delivered: Delivered,
    /// How many tasks aren't done.
    left: u64,
    /// How many of each worker's victims, of those that go first, are known to be gone.
    gone: Vec<usize>,
}

impl<D: Disk> Model for Board<D> {
    ghost use Rattle.sj_board.specs.Board.{BoardState, board_state};
    ghost use Rattle.sj_board.specs.BoardSound.{IsKept};

    ghost Value = { BoardState D };

    ghost view = { λ b. board_state b.run b.hands.items b.pool b.fault b.delivered.pairs };

    ghost invariant = { λ b. IsKept D.faults D.mismatches D.held
        (board_state b.run b.hands.items b.pool b.fault b.delivered.pairs) b.deps b.footprints.items
        b.gifts b.delivered.spare b.left b.gone.items };
}

impl<D: Disk> Keyed for Board<D> {
    ghost use Rattle.sj_board.specs.BoardRow.{BoardKey, BoardRow, key_of, row_of_number};
    ghost use Rattle.sj_board.specs.BoardSound.{IsSoundBoard};

    ghost Key = { BoardKey D };

    ghost Row = { BoardRow D };

    ghost key = { key_of };

    ghost row_of = { row_of_number };

    ghost sound = { IsSoundBoard D.size D.faults D.mismatches D.held };
}

/// A worker's row loses its task. Constant time.
fn let_go(hands: &mut Vec<Hand>, w: Worker)
    requires { w.0 < length hands.old.items }
    ensures { hands.new.items ≡ slice_set hands.old.items w.0
        (record (hand_in hands.old.items w) { task = None }) }
{
    let hand = &mut hands[w.0 as usize];
    hand.task = None;
}

/// A worker's row tells that it has stopped, and loses its task. Constant time.
fn stop_hand(hands: &mut Vec<Hand>, w: Worker)
    requires { w.0 < length hands.old.items }
    ensures { hands.new.items ≡ slice_set hands.old.items w.0
        (record (hand_in hands.old.items w) { task = None; has_stopped = true }) }
{
    let hand = &mut hands[w.0 as usize];
    hand.task = None;
    hand.has_stopped = true;
}

/// A worker is given a task, or none. Constant time.
fn give(hands: &mut Vec<Hand>, w: Worker, given: Option<Task>)
    requires { w.0 < length hands.old.items }
    ensures { hands.new.items ≡ slice_set hands.old.items w.0
        (record (hand_in hands.old.items w) { given = given }) }
{
    let hand = &mut hands[w.0 as usize];
    hand.given = given;
}

/// A worker takes the task that it was given. Constant time.
fn take(hands: &mut Vec<Hand>, w: Worker, t: Task)
    requires { w.0 < length hands.old.items }
    ensures { hands.new.items ≡ slice_set hands.old.items w.0
        (record (hand_in hands.old.items w) { given = None; task = Some t }) }
{
    let hand = &mut hands[w.0 as usize];
    hand.given = None;
    hand.task = Some(t);
}

/// The first of two faults, where there is one already. Constant time.
fn first_of(kept: Option<RunFault>, fault: RunFault) -> Option<RunFault>
    ensures { result ≡ first_fault kept fault }
{
    match kept {
        Some(first) => Some(first),
        None => Some(fault),
    }
}

/// Hands over what is kept for a worker's task. Constant time, and no memory.
fn hand_over(delivered: &mut Delivered, gifts: &mut Gifts, t: Task, w: Worker)
    requires worker { w.0 < length gifts.old }
    requires room { IsTrue (is_some (gift_in gifts.old w)) → 0 < delivered.old.spare }
    ensures pairs { delivered.new.pairs ≡ delivered.old.pairs ++ handed t (gift_in gifts.old w) }
    ensures room { delivered.new.spare + length (handed t (gift_in gifts.old w))
        ≡ delivered.old.spare }
    ensures gifts { gifts.new ≡ slice_set gifts.old w.0 None }
{
    if let Some(tile) = gifts.take(w) {
        delivered.add(t, tile);
    }
}

impl<D: Disk> Board<D> {
    /// A board on which nothing has happened, under `prio` with the tasks that are ready in the pool, and with room for all
    /// events, all deliveries, and all tasks that are released. The footprints are the bytes that each task needs on its node.
    /// The program and the disks come back where memory is wanting. Linear in the tasks and their accesses, and in cells times
    /// nodes; for each ready task logarithmic in all.
    pub fn make(
        alloc: Global,
        program: Arc<Program>,
        footprints: Vec<u64>,
        machine: Machine,
        disks: DiskSet<D>,
    ) -> Result<Board<D>, RunRefusal<D>>
        requires start { CanStart out program.value machine disks }
        requires footprints { AreFootprints program.value footprints.items }
        ensures ok { IfOk result (IsOpening out program.value machine disks) }
        ensures err { IfErr result (λ r. (r.program.value ≡ program.value) × (r.disks ≡ disks)) }
    {
        let Ok(parts) = prepare(alloc, &program, footprints, machine.policy) else {
            return Err(RunRefusal { program, disks });
        };
        let Ok(gone) = none_gone(alloc, program.workers) else {
            return Err(RunRefusal { program, disks });
        };
        let left = program.tasks.len() as u64;
        let run = match RunState::make(alloc, program, machine, disks) {
            Ok(run) => run,
            Err(refusal) => return Err(refusal),
        };
        Ok(Board {
            run,
            deps: parts.deps,
            footprints: parts.footprints,
            hands: parts.hands,
            pool: parts.pool,
            fault: None,
            gifts: parts.gifts,
            delivered: parts.delivered,
            left,
            gone,
        })
    }

    /// The program. Constant time.
    pub fn program(&self) -> &Program
        ensures { result.now ≡ self.now.run.program }
    {
        self.run.program()
    }

    /// The policy of the machine. Constant time.
    pub fn policy(&self) -> Policy
        ensures { result ≡ self.now.run.machine.policy }
    {
        self.run.machine().policy
    }

    /// Whether a fault is kept. Constant time.
    pub fn failed(&self) -> bool
        ensures { result ≡ is_some self.now.fault }
    {
        self.fault.is_some()
    }

    /// Whether all tasks are done. Constant time.
    pub fn all_done(&self) -> bool
        ensures { IsTrue result ↔ IsComplete (state self.now.run) }
    {
        self.left == 0
    }

    /// Whether a task is in the pool that needs at most so many bytes: a ready one under `prio`, else one that was released and
    /// not taken away. Constant time, and but under `prio` linear in the workers.
    pub fn has_ready(&self, room: u64) -> bool
        ensures { result ≡ list_any (has_fitting room) self.now.pool.queues }
    {
        self.pool.has_fitting(room)
    }

    /// Under `prio` gives a worker the most urgent ready task from the pool that fits its node and that it hasn't passed; `None`
    /// exactly where there is none. Those that it comes across and has passed stay in their places. For each of these, and once
    /// more, linear in those that were passed and logarithmic in the tasks; no memory.
    pub fn next(&mut self, w: Worker, passed: &[Task]) -> Option<Task>
        requires by_urgency { self.old.run.machine.policy ≡ Prio }
        requires free { IsFree self.old w }
        ensures given { self.new ≡ given_from self.old w result self.new.pool }
        ensures others { HasLost result self.old.pool self.new.pool }
        ensures left { IfSome result
            (IsLeft self.old.run.program passed.now (room_of self.old w) self.old.pool) }
        ensures none { result ≡ None →
            NoneIsLeft self.old.run.program passed.now (room_of self.old w) self.old.pool }
        ensures urgent { self.old.run.machine.policy ≡ Prio → IfSome result
            (IsFirstLeft self.old.run.program passed.now (room_of self.old w) self.old.pool) }
        ensures first { is_passed passed.now (task_for self.old.pool w.0 (room_of self.old w))
            ≡ false → self.new ≡ given_next self.old w }
    {
        let room = self.run.node_size(w);
        let policy = self.run.machine().policy;
        let task = take_behind(
            &mut self.pool,
            self.run.program(),
            &self.footprints,
            policy,
            w,
            room,
            passed,
        );
        give(&mut self.hands, w, task);
        task
    }

    /// Under `prio` puts the task that a worker was given back into the pool. Logarithmic in the tasks; linear where memory is
    /// refused.
    pub fn give_back(&mut self, t: Task, w: Worker)
        requires by_urgency { self.old.run.machine.policy ≡ Prio }
        requires given { WasGiven self.old w t }
        ensures { self.new ≡ given_back self.old t w }
    {
        put_ready(&mut self.pool, self.run.program(), &self.footprints, t, w);
        give(&mut self.hands, w, None);
    }

    /// A worker claims a task, where no fault is kept: under `prio` the one that it was given, else any that is ready, waits and
    /// fits its node. After an `Err` the board is as before, so that a task that was given is still in the worker's hand;
    /// `NotNow` comes only while another worker has a claimed or running task, and `OutOfMemory` where there is none for the list
    /// of the claim's victims, or for the node's entries. Linear in the operands, the victims, the pinned entries that are
    /// passed, the workers, and those of their victims that aren't known to be gone; and in the workers for each commuting
    /// operand.
    pub fn claim(&mut self, alloc: Global, t: Task, w: Worker) -> Result<(), ClaimRefusal>
        requires may { MayAsk self.old w t }
        requires idle { IsIdle self.old w }
        requires no_fault { self.old.fault ≡ None }
        ensures can { OnOk result (CanHappen self.old.run (Claim t w)) }
        ensures ok { OnOk result (self.new ≡ has_claimed self.old t w) }
        ensures spares { OnOk result (Spares self.old.run (Claim t w) self.new.run) }
        ensures one_worker { OnOk result (HoldsCommutersAlone self.old.run.program
            (state self.new.run) t w) }
        ensures err { OnErr result (self.new ≡ self.old) }
        ensures why { IfErr result (IsRefusal self.old.run.program self.old.run.machine
            (state self.old.run) t w) }
        ensures another { IfErr result (WaitsForAnother (state self.old.run) w) }
        ensures lone { self.old.run.program.workers ≡ 1 →
            IfErr result (λ r. r ≡ ClaimRefusal.OutOfMemory) }
    {
        self.run.is_sound();
        let Ok(found) = self.run.claim_plan_knowing(alloc, t, w, &self.gone) else {
            return Err(ClaimRefusal::OutOfMemory);
        };
        let plan = match found {
            Ok(plan) => plan,
            Err(why) => return Err(ClaimRefusal::NotNow(why)),
        };
        let Ok(()) = self.run.claim(t, w, plan) else {
            return Err(ClaimRefusal::OutOfMemory);
        };
        take(&mut self.hands, w, t);
        note_gone(&mut self.gone, w, 0);
        Ok(())
    }

    /// The kernel of the task begins that a worker has claimed, where no fault is kept. Appends to the frame shares of the
    /// operands whose old value is read, in order; of the cells that it writes, the board keeps no tile, and of what a deliver
    /// task hands over it keeps a further share. Tiles that it kept and are written anew are spent. After an `Err` the board is
    /// as before: a share was refused. Linear in the operands, in the nodes for each written one, and in the victims that have
    /// gone since the worker last dropped one.
    pub fn run(
        &mut self,
        t: Task,
        w: Worker,
        frame: Frame,
        spent: &mut Spent,
    ) -> Result<Frame, OutOfMemory>
        requires task { HasTask self.old w t }
        requires no_fault { self.old.fault ≡ None }
        requires can { CanHappen self.old.run (Run t w) }
        requires empty { frame.slots ≡ [] }
        requires room { length (reads_of (task_of self.old.run.program t).accesses) ≤ frame.spare }
        ensures ok { OnOk result (self.new ≡ has_event self.old (Run t w)) }
        ensures spares { OnOk result (Spares self.old.run (Run t w) self.new.run) }
        ensures shares { IfOk result (λ f. AreSharesFor D.held self.old.run t w f.slots) }
        ensures room { IfOk result (λ f. f.spare + length f.slots ≡ frame.spare) }
        ensures err { OnErr result (self.new ≡ self.old) }
    {
        self.run.is_sound();
        let gift = self.run.gift(t, w)?;
        let frame = self.run.run(t, w, frame, spent)?;
        self.gifts.keep(w, gift);
        let gone = self.run.gone(w, self.gone[w.0 as usize]);
        note_gone(&mut self.gone, w, gone);
        Ok(frame)
    }

    /// The kernel of a worker's task has ended. The frame has shares of its results, in the order of its written operands; it
    /// comes back empty, with its room. The tasks that become ready go to the pool under `prio`, and else are the worker's
    /// released tasks, by number; a deliver task hands its operand's tile over. Linear in the operands and in the accesses that
    /// are released, and for each of these tasks logarithmic in all; no memory.
    pub fn end(&mut self, t: Task, w: Worker, written: Frame) -> Frame
        requires task { HasTask self.old w t }
        requires can { CanHappen self.old.run (End t w) }
        requires taken { HasTakenReleased self.old w }
        requires written { AreResultsFor D.held self.old.run t w written.slots }
        ensures ends { EndsTask D.held self.old t w self.new }
        ensures spares { Spares self.old.run (End t w) self.new.run }
        ensures spent { result.slots ≡ [] }
        ensures room { result.spare ≡ written.spare + length written.slots }
    {
        self.run.is_sound();
        let spent = self.run.end(t, w, written);
        release(
            &mut self.deps,
            &mut self.pool,
            self.run.program(),
            &self.footprints,
            t,
            w,
        );
        let_go(&mut self.hands, w);
        hand_over(&mut self.delivered, &mut self.gifts, t, w);
        self.left -= 1;
        spent
    }

    /// What a worker does next, by the state alone: of its victims that aren't gone the least recently used is written to its
    /// disk where it is the only valid copy, and else dropped; then the cells come that its claim brings, in operand order; then
    /// its kernel begins. It waits only while another worker goes on, or has the disk in hand that it needs. Linear in the
    /// victims that have gone since it last dropped one, in the nodes and in the workers; quadratic in the operands, which are a
    /// task's few. No memory.
    pub fn plan_of(&self, w: Worker) -> Todo
        requires works { IsWorking self.now w }
        requires runs_none { RunsNone self.now w }
        requires moves_none { transfer_of self.now w ≡ None }
        ensures todo { IsTodoOf self.now w result }
        ensures nothing { (result ≡ Todo.Nothing) ↔ ((hand_of self.now w).task ≡ None) }
        ensures busy { result ≢ Todo.Nothing → IsBusy self.now w }
        ensures can { CanBegin self.now w result }
        ensures mover { IsMoverOf self.now w result }
        ensures disk_in { HasDiskIn self.now result }
        ensures counted { IsCounted self.now result }
        ensures ends { result ≡ Todo.Wait → (hand_of self.now w).unit ≡ None →
            AnotherHasUnit self.now w ⊎ AnotherGoesOn self.now.run.program self.now.run.machine
            (state self.now.run) w }
    {
        self.run.is_sound();
        match self.hands[w.0 as usize].task {
            Some(t) => {
                let first = self.run.next_step(t, w, self.gone[w.0 as usize]);
                self.run.unless_out(first)
            }
            None => Todo::Nothing,
        }
    }

    /// A leaving copy goes from the worker's node, since another is valid and no transfer reads it; its tile is spent. Linear in
    /// the victims of the worker that are found gone, each once for a claim; no memory.
    pub fn drop_copy(&mut self, w: Worker, cell: Cell, spent: &mut Spent)
        requires busy { IsBusy self.old w }
        requires can { CanHappen self.old.run (Drop cell (node_of self.old.run.machine w)) }
        ensures drops { self.new ≡ has_event self.old (Drop cell (node_of self.old.run.machine w)) }
        ensures spares { Spares self.old.run (Drop cell (node_of self.old.run.machine w))
            self.new.run }
    {
        self.run.is_sound();
        let n = self.run.node_of(w);
        self.run.drop_copy(cell, n, spent);
        let gone = self.run.gone(w, self.gone[w.0 as usize]);
        note_gone(&mut self.gone, w, gone);
    }

    /// A worker begins a move of a cell, where no fault is kept: one that its claim brings, or a victim of its claim. Hands out
    /// a share of the tile at the source, where that is a node. After an `Err` the board is as before: that share was refused.
    /// No memory where the source is a disk. Constant time.
    pub fn begin_move(
        &mut self,
        w: Worker,
        cell: Cell,
        from: Place,
        to: Place,
    ) -> Result<Option<Arc<Tile>>, OutOfMemory>
        requires busy { IsBusy self.old w }
        requires no_fault { self.old.fault ≡ None }
        requires can { CanHappen self.old.run (Move cell from to) }
        requires mover { mover_of (state self.old.run) cell from to ≡ w }
        ensures ok { OnOk result (self.new ≡ has_event self.old (Move cell from to)) }
        ensures spares { OnOk result (Spares self.old.run (Move cell from to) self.new.run) }
        ensures share { IfOk result (λ share. IsShareOf D.held self.old.run cell from
            (array_in share)) }
        ensures err { OnErr result (self.new ≡ self.old) }
        ensures only_from_a_node { OnErr result (is_node from ≡ true) }
    {
        self.run.is_sound();
        self.run.begin_move(w, cell, from, to)
    }

    /// The move of a worker into a node ends: the tile is there. Constant time, and no memory.
    pub fn end_move_in(&mut self, w: Worker, tile: Arc<Tile>)
        requires busy { IsBusy self.old w }
        requires no_unit { (hand_of self.old w).unit ≡ None }
        requires under_way { IsMovingIn self.old.run w }
        requires tile { IsTileMoved D.held self.old.run w tile.value }
        ensures moved { EndsMoveOf w self.old self.new }
        ensures spares { SparesMoved w self.old.run self.new.run }
    {
        self.run.is_sound();
        self.run.end_move_in(w, tile);
    }

    /// The move of a worker out to a disk ends: the cell's block there is a copy. Constant time, and no memory.
    pub fn end_move_out(&mut self, w: Worker)
        requires busy { IsBusy self.old w }
        requires no_unit { (hand_of self.old w).unit ≡ None }
        requires under_way { IsMovingOut self.old.run w }
        requires written { IsWrittenOut D.held self.old.run w }
        ensures moved { EndsMoveOf w self.old self.new }
        ensures spares { SparesMoved w self.old.run self.new.run }
    {
        self.run.is_sound();
        self.run.end_move_out(w);
    }

    /// A worker has failed: the board keeps the first fault, and the worker has no task any more. The task and the move that
    /// it had stay in the state for good. Constant time, and no memory.
    pub fn fail(&mut self, w: Worker, fault: RunFault)
        requires works { IsWorking self.old w }
        requires no_unit { (hand_of self.old w).unit ≡ None }
        requires cause { HasCause D.faults D.mismatches D.held self.old.run fault }
        ensures { self.new ≡ failed self.old w fault }
    {
        let_go(&mut self.hands, w);
        let kept = first_of(self.fault, fault);
        self.fault = kept;
    }

    /// A worker stops, since all tasks are done or a fault is kept. A task that it had claimed stays so for good. Constant
    /// time, and no memory.
    pub fn stop(&mut self, w: Worker)
        requires works { IsWorking self.old w }
        requires runs_none { RunsNone self.old w }
        requires moves_none { transfer_of self.old w ≡ None }
        requires no_unit { (hand_of self.old w).unit ≡ None }
        requires over { IsOver self.old }
        ensures { self.new ≡ stopped self.old w }
    {
        stop_hand(&mut self.hands, w);
    }

    /// No code: its contract is what is true of every board.
    pub fn is_sound(&self)
        ensures { IsSoundBoard D.size D.faults D.mismatches D.held self.now }
    {
        self.run.is_sound();
    }

    /// No code: its contract is that each event that can happen keeps every copy that a task pins or a transfer reads, but for
    /// the cells that its own task writes.
    pub fn events_spare_what_is_used(&self)
        ensures { EventsSpareUsed self.now.run }
    {
        self.run.events_spare_what_is_used();
    }

    /// What was delivered, the events, the disks, all of which are in, and the first fault. Constant time, and no memory.
    pub fn close(self) -> (Delivered, Trace, LendingSet<D>, Option<RunFault>)
        requires idle { All (λ hand. hand.task ≡ None) self.hands }
        requires no_unit { All (λ hand. hand.unit ≡ None) self.hands }
        ensures delivered { result.0.pairs ≡ self.delivered }
        ensures each { IsComplete (state self.run) →
            DeliversEach out self.run.program (AllTell D.held self.run)
            result.0.pairs }
        ensures trace { result.1.events ≡ self.run.trace }
        ensures disks { result.2 ≡ lent self.run }
        ensures none_is_out { NoneIsOut result.2 }
        ensures fault { result.3 ≡ self.fault }
    {
        self.run.is_sound();
        let fault = self.fault;
        let delivered = self.delivered;
        let (trace, disks) = self.run.close();
        (delivered, trace, disks, fault)
    }
}
