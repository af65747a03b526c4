//! The tasks and ackers of a worker, one after another.
ghost use Rattle.std.specs.Prelude.{◌≡◌, ◌<◌, List, length, map, IfOk, OnOk};
ghost use Rattle.std.specs.List.{AllByRecursion};
ghost use Rattle.box_rows.specs.Rows.{ArePasses, numbers_at};
ghost use Rattle.worker_pool.specs.Ackers.{IsAcker};
ghost use Rattle.worker_pool.specs.Crews.{AckerMoreAt, AckerSaysAt, AckersAtWork, AckersDid};
ghost use Rattle.worker_pool.specs.Crews.{AckersSay, AreUpTo, CrewDid, DesksAtWork};
ghost use Rattle.worker_pool.specs.Crews.{CountsUpAt, KeepsCountedAt};
ghost use Rattle.worker_pool.specs.Crews.{TaskMoreAt, TaskSaysAt, TasksSay};
ghost use Rattle.worker_pool.specs.declared.acker.AckerDesk.{AckerDesk};
ghost use Rattle.worker_pool.specs.Desks.{IsDesk};

use crate::acker::AckerDesk;
use crate::desk::TaskDesk;
use crate::spares::Spares;
use box_rows::{Posts, Row};
use event_worlds::bolt_ops::RowOp;
use event_worlds::storm_ids::Ids;
use event_worlds::storm_values::Memory;
use std::sync::Wait;
use storm_gates::Gate;

// The task at a place has a step.
fn step_at<'p, I: Ids, R: Wait, O: RowOp, G: Gate>(
    rt: &R,
    posts: &Posts<'_>,
    desks: &mut Vec<TaskDesk<'p, I>>,
    n: usize,
    row: &mut Row,
    spares: &mut Spares,
    custom: &O,
    gate: &G,
) -> Result<bool, Memory>
    requires there { n < length desks.old.items }
    requires work { DesksAtWork posts.now.plan.now posts.now.boxes.items desks.old.items
        row.old.items }
    ensures passes { ArePasses posts.now.plan.now posts.now.boxes.items row.new.items }
    ensures numbers { map numbers_at row.new.items ≡ map numbers_at row.old.items }
    ensures desks { OnOk result (AllByRecursion (IsDesk posts.now.plan.now) desks.new.items) }
    ensures did { OnOk result ((ackers : List AckerDesk) → CrewDid I.tells posts.now.plan.now
        (O.meaning custom.now) desks.old.items desks.new.items ackers ackers
        row.old.items row.new.items) }
    ensures says { IfOk result (λ did.
        TaskSaysAt n did desks.old.items desks.new.items row.old.items row.new.items) }
{
    let did = desks[n].step(rt, posts, row, spares, custom, gate)?;
    Ok(did)
}

// The task at a place has the rest of so many steps, or fewer where it can do nothing.
fn go_on_at<'p, I: Ids, R: Wait, O: RowOp, G: Gate>(
    rt: &R,
    posts: &Posts<'_>,
    desks: &mut Vec<TaskDesk<'p, I>>,
    n: usize,
    row: &mut Row,
    spares: &mut Spares,
    custom: &O,
    gate: &G,
    steps: u32,
) -> Result<(), Memory>
    requires there { n < length desks.old.items }
    requires work { DesksAtWork posts.now.plan.now posts.now.boxes.items desks.old.items
        row.old.items }
    ensures passes { ArePasses posts.now.plan.now posts.now.boxes.items row.new.items }
    ensures numbers { map numbers_at row.new.items ≡ map numbers_at row.old.items }
    ensures desks { OnOk result (AllByRecursion (IsDesk posts.now.plan.now) desks.new.items) }
    ensures did { OnOk result ((ackers : List AckerDesk) → CrewDid I.tells posts.now.plan.now
        (O.meaning custom.now) desks.old.items desks.new.items ackers ackers
        row.old.items row.new.items) }
    ensures more { OnOk result
        (TaskMoreAt n desks.old.items desks.new.items row.old.items row.new.items) }
{
    for _done in 1..steps {
        let did = step_at(rt, posts, desks, n, row, spares, custom, gate)?;
        if !did {
            return Ok(());
        }
    }
    Ok(())
}

// The task at a place has so many steps, or fewer where it can do nothing, and one at least. It
// says whether it did anything.
fn work_at<'p, I: Ids, R: Wait, O: RowOp, G: Gate>(
    rt: &R,
    posts: &Posts<'_>,
    desks: &mut Vec<TaskDesk<'p, I>>,
    n: usize,
    row: &mut Row,
    spares: &mut Spares,
    custom: &O,
    gate: &G,
    steps: u32,
) -> Result<bool, Memory>
    requires there { n < length desks.old.items }
    requires work { DesksAtWork posts.now.plan.now posts.now.boxes.items desks.old.items
        row.old.items }
    ensures passes { ArePasses posts.now.plan.now posts.now.boxes.items row.new.items }
    ensures numbers { map numbers_at row.new.items ≡ map numbers_at row.old.items }
    ensures desks { OnOk result (AllByRecursion (IsDesk posts.now.plan.now) desks.new.items) }
    ensures did { OnOk result ((ackers : List AckerDesk) → CrewDid I.tells posts.now.plan.now
        (O.meaning custom.now) desks.old.items desks.new.items ackers ackers
        row.old.items row.new.items) }
    ensures says { IfOk result (λ did.
        TaskSaysAt n did desks.old.items desks.new.items row.old.items row.new.items) }
{
    let did = step_at(rt, posts, desks, n, row, spares, custom, gate)?;
    if !did {
        return Ok(false);
    }
    go_on_at(rt, posts, desks, n, row, spares, custom, gate, steps)?;
    Ok(true)
}

/// Each task has a turn of so many steps at most. It says whether one of them did anything.
pub(crate) fn turn_of_tasks<'p, I: Ids, R: Wait, O: RowOp, G: Gate>(
    rt: &R,
    posts: &Posts<'_>,
    desks: &mut Vec<TaskDesk<'p, I>>,
    row: &mut Row,
    spares: &mut Spares,
    custom: &O,
    gate: &G,
    steps: u32,
) -> Result<bool, Memory>
    requires work { DesksAtWork posts.now.plan.now posts.now.boxes.items desks.old.items
        row.old.items }
    ensures passes { ArePasses posts.now.plan.now posts.now.boxes.items row.new.items }
    ensures numbers { map numbers_at row.new.items ≡ map numbers_at row.old.items }
    ensures desks { OnOk result (AllByRecursion (IsDesk posts.now.plan.now) desks.new.items) }
    ensures did { OnOk result ((ackers : List AckerDesk) → CrewDid I.tells posts.now.plan.now
        (O.meaning custom.now) desks.old.items desks.new.items ackers ackers
        row.old.items row.new.items) }
    ensures says { IfOk result (λ did.
        TasksSay did desks.old.items desks.new.items row.old.items row.new.items) }
{
    let mut moved = false;
    for n in 0..desks.len() {
        moved |= work_at(rt, posts, desks, n, row, spares, custom, gate, steps)?;
    }
    Ok(moved)
}

// The acker at a place rotates.
fn count_at(posts: &Posts<'_>, ackers: &mut Vec<AckerDesk>, n: usize, row: &Row, tick: u64)
    requires there { n < length ackers.old.items }
    requires ackers { AllByRecursion (IsAcker posts.now.plan.now) ackers.old.items }
    ensures ackers { AllByRecursion (IsAcker posts.now.plan.now) ackers.new.items }
    ensures did { AckersDid posts.now.plan.now ackers.old.items ackers.new.items
        row.now.items row.now.items }
    ensures more { AckerMoreAt n ackers.old.items ackers.new.items row.now.items row.now.items }
    ensures counted { CountsUpAt n tick ackers.old.items ackers.new.items }
{
    let _ = row;
    ackers[n].count_up(posts.plan.buckets(), tick);
}

// The acker at a place has a step.
fn note_at<R: Wait>(
    rt: &R,
    posts: &Posts<'_>,
    ackers: &mut Vec<AckerDesk>,
    n: usize,
    row: &mut Row,
    spares: &mut Spares,
) -> Result<bool, Memory>
    requires there { n < length ackers.old.items }
    requires work { AckersAtWork posts.now.plan.now posts.now.boxes.items ackers.old.items
        row.old.items }
    ensures passes { ArePasses posts.now.plan.now posts.now.boxes.items row.new.items }
    ensures numbers { map numbers_at row.new.items ≡ map numbers_at row.old.items }
    ensures ackers { OnOk result (AllByRecursion (IsAcker posts.now.plan.now) ackers.new.items) }
    ensures did { OnOk result (AckersDid posts.now.plan.now ackers.old.items ackers.new.items
        row.old.items row.new.items) }
    ensures says { IfOk result (λ did. AckerSaysAt posts.now.plan.now n did
        ackers.old.items ackers.new.items row.old.items row.new.items) }
    ensures counted { OnOk result (KeepsCountedAt n ackers.old.items ackers.new.items) }
{
    let did = ackers[n].step(rt, posts, row, spares)?;
    Ok(did)
}

// The acker at a place has the rest of so many steps, or fewer where it can do nothing.
fn keep_on_at<R: Wait>(
    rt: &R,
    posts: &Posts<'_>,
    ackers: &mut Vec<AckerDesk>,
    n: usize,
    row: &mut Row,
    spares: &mut Spares,
    steps: u32,
) -> Result<(), Memory>
    requires there { n < length ackers.old.items }
    requires work { AckersAtWork posts.now.plan.now posts.now.boxes.items ackers.old.items
        row.old.items }
    ensures passes { ArePasses posts.now.plan.now posts.now.boxes.items row.new.items }
    ensures numbers { map numbers_at row.new.items ≡ map numbers_at row.old.items }
    ensures ackers { OnOk result (AllByRecursion (IsAcker posts.now.plan.now) ackers.new.items) }
    ensures did { OnOk result (AckersDid posts.now.plan.now ackers.old.items ackers.new.items
        row.old.items row.new.items) }
    ensures more { OnOk result
        (AckerMoreAt n ackers.old.items ackers.new.items row.old.items row.new.items) }
    ensures counted { OnOk result (KeepsCountedAt n ackers.old.items ackers.new.items) }
{
    for _done in 1..steps {
        let did = note_at(rt, posts, ackers, n, row, spares)?;
        if !did {
            return Ok(());
        }
    }
    Ok(())
}

// The acker at a place has so many steps, or fewer where it can do nothing, and one at least. It
// says whether it did anything.
fn meet_at<R: Wait>(
    rt: &R,
    posts: &Posts<'_>,
    ackers: &mut Vec<AckerDesk>,
    n: usize,
    row: &mut Row,
    spares: &mut Spares,
    steps: u32,
) -> Result<bool, Memory>
    requires there { n < length ackers.old.items }
    requires work { AckersAtWork posts.now.plan.now posts.now.boxes.items ackers.old.items
        row.old.items }
    ensures passes { ArePasses posts.now.plan.now posts.now.boxes.items row.new.items }
    ensures numbers { map numbers_at row.new.items ≡ map numbers_at row.old.items }
    ensures ackers { OnOk result (AllByRecursion (IsAcker posts.now.plan.now) ackers.new.items) }
    ensures did { OnOk result (AckersDid posts.now.plan.now ackers.old.items ackers.new.items
        row.old.items row.new.items) }
    ensures says { IfOk result (λ did. AckerSaysAt posts.now.plan.now n did
        ackers.old.items ackers.new.items row.old.items row.new.items) }
    ensures counted { OnOk result (KeepsCountedAt n ackers.old.items ackers.new.items) }
{
    let did = note_at(rt, posts, ackers, n, row, spares)?;
    if !did {
        return Ok(false);
    }
    keep_on_at(rt, posts, ackers, n, row, spares, steps)?;
    Ok(true)
}

// The acker at a place rotates up to the tick, and has steps.
fn turn_at<R: Wait>(
    rt: &R,
    posts: &Posts<'_>,
    ackers: &mut Vec<AckerDesk>,
    n: usize,
    row: &mut Row,
    spares: &mut Spares,
    tick: u64,
    steps: u32,
) -> Result<bool, Memory>
    requires there { n < length ackers.old.items }
    requires work { AckersAtWork posts.now.plan.now posts.now.boxes.items ackers.old.items
        row.old.items }
    ensures passes { ArePasses posts.now.plan.now posts.now.boxes.items row.new.items }
    ensures numbers { map numbers_at row.new.items ≡ map numbers_at row.old.items }
    ensures ackers { OnOk result (AllByRecursion (IsAcker posts.now.plan.now) ackers.new.items) }
    ensures did { OnOk result (AckersDid posts.now.plan.now ackers.old.items ackers.new.items
        row.old.items row.new.items) }
    ensures says { IfOk result (λ did. AckerSaysAt posts.now.plan.now n did
        ackers.old.items ackers.new.items row.old.items row.new.items) }
    ensures counted { OnOk result (CountsUpAt n tick ackers.old.items ackers.new.items) }
{
    count_at(posts, ackers, n, row, tick);
    let did = meet_at(rt, posts, ackers, n, row, spares, steps)?;
    Ok(did)
}

/// Each acker rotates up to the tick, and has a turn of so many steps at most. It says whether one
/// of them did anything.
pub(crate) fn turn_of_ackers<R: Wait>(
    rt: &R,
    posts: &Posts<'_>,
    ackers: &mut Vec<AckerDesk>,
    row: &mut Row,
    spares: &mut Spares,
    tick: u64,
    steps: u32,
) -> Result<bool, Memory>
    requires work { AckersAtWork posts.now.plan.now posts.now.boxes.items ackers.old.items
        row.old.items }
    ensures passes { ArePasses posts.now.plan.now posts.now.boxes.items row.new.items }
    ensures numbers { map numbers_at row.new.items ≡ map numbers_at row.old.items }
    ensures ackers { OnOk result (AllByRecursion (IsAcker posts.now.plan.now) ackers.new.items) }
    ensures did { OnOk result (AckersDid posts.now.plan.now ackers.old.items ackers.new.items
        row.old.items row.new.items) }
    ensures says { IfOk result (λ did. AckersSay posts.now.plan.now did
        ackers.old.items ackers.new.items row.old.items row.new.items) }
    ensures counted { OnOk result (AreUpTo tick ackers.old.items ackers.new.items) }
{
    let mut moved = false;
    for n in 0..ackers.len() {
        moved |= turn_at(rt, posts, ackers, n, row, spares, tick, steps)?;
    }
    Ok(moved)
}
