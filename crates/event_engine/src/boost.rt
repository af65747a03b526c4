//! Many events of a task or of an acker in one call.
ghost use Rattle.std.specs.Prelude.{◌≡◌, ◌<◌, ◌-◌, ◌^◌, true, false, length, IfOk, OnOk, OnErr};
ghost use Rattle.event_worlds.specs.attempt_fates.Fates.{IsOnce};
ghost use Rattle.event_worlds.specs.bolt_ops.RowOp.{Custom};
ghost use Rattle.event_engine.specs.Boosts.{AckerRests, AckersBoost, Boosts, GoesBeside, GoesUpTo, TaskRests, TasksBoost, WritesTo};
ghost use Rattle.event_engine.specs.Engines.{IsReady, IsStill, cut_in, has_ended, shape, topology_in};
ghost use Rattle.event_worlds.specs.Worlds.{of_acker, of_task};
ghost use Rattle.event_worlds.specs.topology_plan.Topology.{tasks_in_all};

use crate::acker::is_idle_at;
use crate::engine::Engine;
use crate::task::{acker_at, write_at};
use event_worlds::bolt_ops::RowOp;
use event_worlds::storm_ids::Ids;
use event_worlds::storm_values::Memory;

impl<'p, I: Ids> Engine<'p, I> {
    /// Each task has its events, and then each acker: so many at most, and fewer only where nothing
    /// is left for it to do. A part of a state has up to as many more before these, whose messages
    /// its ackers meet at once. It gives no ticks, and the coordinator has no turn.
    pub fn boost<O: RowOp>(&mut self, most: u32, custom: &O) -> Result<(), Memory>
        requires { IsReady (topology_in self.old) (cut_in self.old) self.old }
        ensures ready { OnOk result
            (IsReady (topology_in self.old) (cut_in self.old) self.new) }
        ensures boosts { OnOk result (Boosts I.tells (topology_in self.old) (O.meaning custom.now)
            (cut_in self.old) most self.old self.new) }
        ensures still { IsStill self.old self.new }
        ensures once { OnErr result (IsOnce (cut_in self.old)
            (2 ^ 64 - 1) self.new.fates) }
    {
        if self.is_over() {
            return Ok(());
        }
        self.tasks_often(most, custom)?;
        self.ackers_often(most)?;
        Ok(())
    }

    // Each task has its events, so many at most. A part of a state writes first what its ackers can
    // meet at once.
    fn tasks_often<O: RowOp>(&mut self, most: u32, custom: &O) -> Result<(), Memory>
        requires ready { IsReady (topology_in self.old) (cut_in self.old) self.old }
        requires goes_on { has_ended self.old ≡ false }
        ensures ready { OnOk result
            (IsReady (topology_in self.old) (cut_in self.old) self.new) }
        ensures boosts { OnOk result (TasksBoost I.tells (topology_in self.old)
            (O.meaning custom.now) (cut_in self.old) most self.old self.new) }
        ensures still { IsStill self.old self.new }
    {
        for n in 0..self.plan.tasks() {
            self.write_often(n, most)?;
            self.task_often(n, most, custom)?;
        }
        Ok(())
    }

    // Each acker has its events, so many at most.
    fn ackers_often(&mut self, most: u32) -> Result<(), Memory>
        requires ready { IsReady (topology_in self.old) (cut_in self.old) self.old }
        requires goes_on { has_ended self.old ≡ false }
        ensures ready { OnOk result
            (IsReady (topology_in self.old) (cut_in self.old) self.new) }
        ensures boosts { (custom : Custom) → OnOk result (AckersBoost I.tells
            (topology_in self.old) custom (cut_in self.old) most self.old self.new) }
        ensures still { IsStill self.old self.new }
    {
        for n in 0..self.plan.ackers() {
            self.acker_often(n, most)?;
        }
        Ok(())
    }

    // Task n has its events, until nothing is left for it to do.
    fn task_often<O: RowOp>(&mut self, n: u32, most: u32, custom: &O) -> Result<(), Memory>
        requires there { n < tasks_in_all (topology_in self.old) }
        requires ready { IsReady (topology_in self.old) (cut_in self.old) self.old }
        requires goes_on { has_ended self.old ≡ false }
        ensures ready { OnOk result
            (IsReady (topology_in self.old) (cut_in self.old) self.new) }
        ensures goes { OnOk result (GoesUpTo I.tells (topology_in self.old) (O.meaning custom.now)
            (cut_in self.old) most (of_task n) (TaskRests (topology_in self.old) n)
            self.old self.new) }
        ensures still { IsStill self.old self.new }
    {
        for done in 0..most {
            if self.task_rests(n) {
                return Ok(());
            }
            self.task_event(n, custom)?;
        }
        Ok(())
    }

    // Task n executes its front tuples and hands over what their ackers are told of them, and these
    // meet it at once, as long as it is a part of a state and they can.
    fn write_often(&mut self, n: u32, most: u32) -> Result<(), Memory>
        requires there { n < tasks_in_all (topology_in self.old) }
        requires ready { IsReady (topology_in self.old) (cut_in self.old) self.old }
        requires goes_on { has_ended self.old ≡ false }
        ensures ready { OnOk result
            (IsReady (topology_in self.old) (cut_in self.old) self.new) }
        ensures goes { (custom : Custom) → OnOk result (GoesBeside I.tells (topology_in self.old)
            custom (cut_in self.old) most n self.old self.new) }
        ensures still { IsStill self.old self.new }
    {
        for _ in 0..most / 2 {
            if !self.write_event(n, most)? {
                return Ok(());
            }
        }
        Ok(())
    }

    // The same for the front tuple alone, after the events that its acker still has. It answers
    // whether it wrote.
    fn write_event(&mut self, n: u32, most: u32) -> Result<bool, Memory>
        requires there { n < tasks_in_all (topology_in self.old) }
        requires ready { IsReady (topology_in self.old) (cut_in self.old) self.old }
        requires goes_on { has_ended self.old ≡ false }
        ensures ready { OnOk result
            (IsReady (topology_in self.old) (cut_in self.old) self.new) }
        ensures goes { (custom : Custom) → OnOk result (GoesBeside I.tells (topology_in self.old)
            custom (cut_in self.old) 2 n self.old self.new) }
        ensures still { IsStill self.old self.new }
    {
        let Some(a) = acker_at(&self.tasks, n) else {
            return Ok(false);
        };
        self.acker_often(a, most)?;
        let wrote = self.write_to(n)?;
        Ok(wrote)
    }

    // The same where the acker is idle.
    fn write_to(&mut self, n: u32) -> Result<bool, Memory>
        requires there { n < tasks_in_all (topology_in self.old) }
        requires ready { IsReady (topology_in self.old) (cut_in self.old) self.old }
        requires goes_on { has_ended self.old ≡ false }
        ensures ready { OnOk result
            (IsReady (topology_in self.old) (cut_in self.old) self.new) }
        ensures wrote { IfOk result (λ wrote. WritesTo n self.old self.new wrote) }
        ensures still { IsStill self.old self.new }
    {
        let Some(a) = acker_at(&self.tasks, n) else {
            return Ok(false);
        };
        if !is_idle_at(&self.ackers, a, self.tick) {
            return Ok(false);
        }
        let wrote = write_at(&mut self.tasks, n, &mut self.ackers, a)?;
        Ok(wrote)
    }

    // Acker n has its events, until nothing is left for it to do.
    fn acker_often(&mut self, n: u32, most: u32) -> Result<(), Memory>
        requires there { n < (topology_in self.old).ackers }
        requires ready { IsReady (topology_in self.old) (cut_in self.old) self.old }
        requires goes_on { has_ended self.old ≡ false }
        ensures ready { OnOk result
            (IsReady (topology_in self.old) (cut_in self.old) self.new) }
        ensures goes { (custom : Custom) → OnOk result (GoesUpTo I.tells (topology_in self.old)
            custom (cut_in self.old) most (of_acker n) (AckerRests n) self.old self.new) }
        ensures still { IsStill self.old self.new }
    {
        for done in 0..most {
            if self.acker_rests(n) {
                return Ok(());
            }
            self.acker_event(n)?;
        }
        Ok(())
    }

    // Whether task n has nothing in its box and nothing to hand over.
    fn task_rests(&self, n: u32) -> bool
        requires { n < length self.now.tasks.items }
        ensures { result ≡ true → TaskRests (topology_in self.now) n (shape self.now) }
    {
        self.tasks[n as usize].rests()
    }

    // Whether acker n has nothing in its box and nothing to hand over.
    fn acker_rests(&self, n: u32) -> bool
        requires { n < length self.now.ackers.items }
        ensures { result ≡ true → AckerRests n (shape self.now) }
    {
        self.ackers[n as usize].rests()
    }
}
