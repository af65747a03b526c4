//! A worker, its turns and its stretches.
ghost use Rattle.std.specs.Prelude.{◌≡◌, ◌<◌, All, IfOk, OnOk};
ghost use Rattle.std.specs.List.{AllZip};
ghost use Rattle.worker_pool.specs.Workers.{Did, IsAtWork, IsReady, Keeps, Stretched, Turned};

use crate::acker::AckerDesk;
use crate::crew::{turn_of_ackers, turn_of_tasks};
use crate::desk::TaskDesk;
use crate::spares::Spares;
use box_rows::{Posts, Row};
use event_worlds::bolt_ops::RowOp;
use event_worlds::storm_ids::Ids;
use event_worlds::storm_values::Memory;
use pulse_board::{Board, BoardSeat};
use std::sync::Wait;
use std::thread::Threads;
use std::{hint, thread};
use storm_gates::Gate;

// How many turns a stretch has at most.
const TURNS: u32 = 4096;

// How many steps a task or an acker has at most in a turn.
const STEPS: u32 = 256;

// How often a worker looks before it has nothing to do.
const LOOKS: u32 = 256;

/// What a worker owns: tasks and ackers, a pass to each box, a seat at the board, and the memory of
/// emptied runs.
#[derive(Drop)]
pub struct Worker<'p, I: Ids> {
    pub desks: Vec<TaskDesk<'p, I>>,
    pub ackers: Vec<AckerDesk>,
    pub row: Row,
    pub seat: BoardSeat,
    pub spares: Spares,
    /// In so many turns of its last stretch something was done.
    pub turns: u32,
    /// It wanted memory.
    pub wants: bool,
}

impl<'p, I: Ids> Worker<'p, I> {
    /// Each task has one step, in their order, and then each acker. It says whether one of them did
    /// anything.
    pub fn round<R: Wait, O: RowOp, G: Gate>(
        &mut self,
        rt: &R,
        posts: &Posts<'_>,
        board: &Board,
        custom: &O,
        gate: &G,
    ) -> Result<bool, Memory>
        requires { IsAtWork posts.now.plan.now posts.now.boxes.items board.now self.old }
        ensures keeps { Keeps posts.now.plan.now posts.now.boxes.items board.now self.old self.new }
        ensures work { OnOk result
            (IsAtWork posts.now.plan.now posts.now.boxes.items board.now self.new) }
        ensures did { OnOk result
            (Did I.tells posts.now.plan.now (O.meaning custom.now) self.old self.new) }
        ensures turned { IfOk result (λ did. Turned posts.now.plan.now did self.old self.new) }
        ensures wants { self.new.wants ≡ self.old.wants }
        ensures turns { self.new.turns ≡ self.old.turns }
    {
        let did = self.turn(rt, posts, board, custom, gate, 1)?;
        Ok(did)
    }

    // Each task and each acker has a turn of so many steps at most. It says whether one of them did
    // anything.
    fn turn<R: Wait, O: RowOp, G: Gate>(
        &mut self,
        rt: &R,
        posts: &Posts<'_>,
        board: &Board,
        custom: &O,
        gate: &G,
        steps: u32,
    ) -> Result<bool, Memory>
        requires { IsAtWork posts.now.plan.now posts.now.boxes.items board.now self.old }
        ensures keeps { Keeps posts.now.plan.now posts.now.boxes.items board.now self.old self.new }
        ensures work { OnOk result
            (IsAtWork posts.now.plan.now posts.now.boxes.items board.now self.new) }
        ensures did { OnOk result
            (Did I.tells posts.now.plan.now (O.meaning custom.now) self.old self.new) }
        ensures turned { IfOk result (λ did. Turned posts.now.plan.now did self.old self.new) }
        ensures wants { self.new.wants ≡ self.old.wants }
        ensures turns { self.new.turns ≡ self.old.turns }
    {
        let tick = board.ticks(&mut self.seat);
        let worked = turn_of_tasks(
            rt,
            posts,
            &mut self.desks,
            &mut self.row,
            &mut self.spares,
            custom,
            gate,
            steps,
        )?;
        let met = turn_of_ackers(
            rt,
            posts,
            &mut self.ackers,
            &mut self.row,
            &mut self.spares,
            tick,
            steps,
        )?;
        Ok(worked | met)
    }

    // A turn in which something is done, if one of the next ones is such.
    fn busy_turn<R: Wait, O: RowOp, G: Gate>(
        &mut self,
        rt: &R,
        posts: &Posts<'_>,
        board: &Board,
        custom: &O,
        gate: &G,
    ) -> Result<bool, Memory>
        requires { IsAtWork posts.now.plan.now posts.now.boxes.items board.now self.old }
        ensures keeps { Keeps posts.now.plan.now posts.now.boxes.items board.now self.old self.new }
        ensures work { OnOk result
            (IsAtWork posts.now.plan.now posts.now.boxes.items board.now self.new) }
        ensures did { OnOk result
            (Did I.tells posts.now.plan.now (O.meaning custom.now) self.old self.new) }
        ensures turned { IfOk result (λ did. Turned posts.now.plan.now did self.old self.new) }
        ensures wants { self.new.wants ≡ self.old.wants }
        ensures turns { self.new.turns ≡ self.old.turns }
    {
        let at_once = self.turn(rt, posts, board, custom, gate, STEPS)?;
        if at_once {
            return Ok(true);
        }
        for _ in 1..LOOKS {
            hint::spin_loop();
            let did = self.turn(rt, posts, board, custom, gate, STEPS)?;
            if did {
                return Ok(true);
            }
        }
        Ok(false)
    }

    /// Turns, until one in which nothing was done, or the board is halted. Want of memory halts the
    /// board.
    pub fn stretch<R: Wait, O: RowOp, G: Gate>(
        &mut self,
        rt: &R,
        posts: &Posts<'_>,
        board: &Board,
        custom: &O,
        gate: &G,
    )
        requires { IsReady posts.now.plan.now posts.now.boxes.items board.now self.old }
        ensures { Stretched I.tells posts.now.plan.now posts.now.boxes.items board.now
            (O.meaning custom.now) self.old self.new }
    {
        self.turns = 0;
        for done in 0..TURNS {
            if board.halted(&mut self.seat) {
                return;
            }
            match self.busy_turn(rt, posts, board, custom, gate) {
                Ok(true) => self.turns = done + 1,
                Ok(false) => return,
                Err(_) => {
                    self.wants = true;
                    board.halt(&mut self.seat);
                    return;
                }
            }
        }
    }
}

/// Each worker has a stretch, beside the others.
pub fn stretch_all<'p, I: Ids + Send, R: Threads + Wait + Sync, O: RowOp, G: Gate>(
    rt: &R,
    posts: &Posts<'_>,
    board: &Board,
    workers: &mut [Worker<'p, I>],
    threads: usize,
    custom: &O,
    gate: &G,
)
    requires threads { 0 < threads }
    requires ready { All (IsReady posts.now.plan.now posts.now.boxes.items board.now)
        workers.old }
    ensures { AllZip (Stretched I.tells posts.now.plan.now posts.now.boxes.items board.now
        (O.meaning custom.now)) workers.old workers.new }
{
    thread::for_each_mut(
        rt,
        workers,
        threads,
        &|_, w|
            requires { IsReady posts.now.plan.now posts.now.boxes.items board.now w.old }
        { w.stretch(rt, posts, board, custom, gate) },
    );
}
