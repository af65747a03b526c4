//! What waits in boxes and outboxes comes to the inboxes that it is for, each packet through a box.
ghost use Rattle.std.specs.Prelude.{◌≡◌, ◌<◌, ◌+◌, ℕ, length, OnOk};
ghost use Rattle.std.specs.List.{AllByRecursion};
ghost use Rattle.worker_stretches.specs.box_rows.FitRows.{IsFitRow};
ghost use Rattle.worker_stretches.specs.box_rows.Mails.{IsTrueMail, weigh_mail};
ghost use Rattle.worker_stretches.specs.event_engine.Engines.{IsReady, IsStill, cut_in, shape, sources, topology_in};
ghost use Rattle.event_worlds.specs.Orderly.{FitsParcel};
ghost use Rattle.event_worlds.specs.tuple_account.Histories.{Packet};
ghost use Rattle.worker_stretches.specs.Teams.{Waiting};
ghost use Rattle.worker_turns.specs.Carrying.{AreEmpty, Brings, EngineCarries, FitsMail, HaveRoom, IsEmptyAt, IsSwept, KeepsOthers, StaysSwept, nothing_left, weigh_all, weigh_verdicts};

use crate::runs::{box_number, run_from};
use event_worlds::acker_core::Verdict;
use event_worlds::storm_ids::Ids;
use event_worlds::storm_values::Memory;
use event_worlds::tree_model::Parcel;
use std::alloc::Global;
use std::collections::VecDeque;
use std::sync::Wait;
use worker_stretches::box_rows::{Mail, Posts, Row, send_fit, take_fit};
use worker_stretches::event_engine::Engine;

// What mail brings comes to the inboxes that it names.
fn put_in<I: Ids>(engine: &mut Engine<'_, I>, mail: Mail) -> Result<(), Memory>
    requires ready { IsReady (topology_in engine.old) (cut_in engine.old) engine.old }
    requires fits { FitsMail (topology_in engine.old) mail }
    ensures ready { OnOk result
        (IsReady (topology_in engine.old) (cut_in engine.old) engine.new) }
    ensures still { IsStill engine.old engine.new }
    ensures sources { OnOk result (sources engine.new ≡ sources engine.old) }
    ensures brings { OnOk result (Brings mail (shape engine.old) (shape engine.new)) }
{
    match mail {
        Mail::Run(parcels) => {
            engine.receive(parcels)?;
            Ok(())
        }
        Mail::Verdict(verdict) => {
            engine.hear(verdict)?;
            Ok(())
        }
    }
}

// What the box of a number holds comes to inboxes.
fn gather_box<R: Wait, I: Ids>(
    rt: &R,
    posts: &Posts<'_>,
    row: &mut Row,
    engine: &mut Engine<'_, I>,
    at: usize,
) -> Result<(), Memory>
    requires ready { IsReady posts.now.plan.now (cut_in engine.old) engine.old }
    requires row { IsFitRow posts.now.plan.now posts.now.boxes.items row.old.items }
    requires there { at < length posts.now.boxes.items }
    ensures ready { OnOk result (IsReady posts.now.plan.now (cut_in engine.old) engine.new) }
    ensures row { IsFitRow posts.now.plan.now posts.now.boxes.items row.new.items }
    ensures still { IsStill engine.old engine.new }
    ensures empty { OnOk result (IsEmptyAt at row.new.items) }
    ensures others { KeepsOthers at row.old.items row.new.items }
    ensures swept { OnOk result (StaysSwept (shape engine.old) (shape engine.new)) }
    ensures carries { (left : Waiting) → OnOk result
        (EngineCarries engine.old engine.new row.old.items row.new.items left left) }
{
    while let Some(mail) = take_fit(rt, posts, row, at) {
        put_in(engine, mail)?;
    }
    Ok(())
}

// What all boxes hold comes to inboxes.
fn gather_boxes<R: Wait, I: Ids>(
    rt: &R,
    posts: &Posts<'_>,
    row: &mut Row,
    engine: &mut Engine<'_, I>,
) -> Result<(), Memory>
    requires ready { IsReady posts.now.plan.now (cut_in engine.old) engine.old }
    requires row { IsFitRow posts.now.plan.now posts.now.boxes.items row.old.items }
    ensures ready { OnOk result (IsReady posts.now.plan.now (cut_in engine.old) engine.new) }
    ensures row { IsFitRow posts.now.plan.now posts.now.boxes.items row.new.items }
    ensures still { IsStill engine.old engine.new }
    ensures empty { OnOk result (AreEmpty row.new.items) }
    ensures carries { (left : Waiting) → OnOk result
        (EngineCarries engine.old engine.new row.old.items row.new.items left left) }
{
    for at in 0..posts.boxes.len() {
        gather_box(rt, posts, row, engine, at)?;
    }
    Ok(())
}

// Mail goes through its box, which is empty, to the inboxes that it is for.
fn carry<R: Wait, I: Ids>(
    rt: &R,
    posts: &Posts<'_>,
    row: &mut Row,
    engine: &mut Engine<'_, I>,
    at: usize,
    mail: Mail,
) -> Result<(), Memory>
    requires ready { IsReady posts.now.plan.now (cut_in engine.old) engine.old }
    requires row { IsFitRow posts.now.plan.now posts.now.boxes.items row.old.items }
    requires there { at < length posts.now.boxes.items }
    requires is_true { IsTrueMail posts.now.plan.now at mail }
    requires empty { AreEmpty row.old.items }
    requires room { HaveRoom row.old.items }
    ensures ready { OnOk result (IsReady posts.now.plan.now (cut_in engine.old) engine.new) }
    ensures row { IsFitRow posts.now.plan.now posts.now.boxes.items row.new.items }
    ensures still { IsStill engine.old engine.new }
    ensures empty { OnOk result (AreEmpty row.new.items) }
    ensures room { HaveRoom row.new.items }
    ensures swept { OnOk result (StaysSwept (shape engine.old) (shape engine.new)) }
    ensures carries { (left now_left : Waiting)
        → ((f : Packet → ℕ) → left f ≡ weigh_mail f mail + now_left f) → OnOk result
        (EngineCarries engine.old engine.new row.old.items row.new.items left now_left) }
{
    match send_fit(rt, posts, row, at, mail) {
        Ok(()) => {
            gather_box(rt, posts, row, engine, at)?;
            Ok(())
        }
        Err(_) => unreachable!(),
    }
}

// Parcels go through their boxes, neighbours for one box as one run, to the inboxes that they are
// for.
fn carry_parcels<R: Wait, I: Ids>(
    rt: &R,
    alloc: Global,
    posts: &Posts<'_>,
    row: &mut Row,
    engine: &mut Engine<'_, I>,
    parcels: VecDeque<Parcel>,
) -> Result<(), Memory>
    requires ready { IsReady posts.now.plan.now (cut_in engine.old) engine.old }
    requires row { IsFitRow posts.now.plan.now posts.now.boxes.items row.old.items }
    requires fits { AllByRecursion (FitsParcel posts.now.plan.now) parcels.items }
    requires empty { AreEmpty row.old.items }
    requires room { HaveRoom row.old.items }
    ensures ready { OnOk result (IsReady posts.now.plan.now (cut_in engine.old) engine.new) }
    ensures row { IsFitRow posts.now.plan.now posts.now.boxes.items row.new.items }
    ensures still { IsStill engine.old engine.new }
    ensures empty { OnOk result (AreEmpty row.new.items) }
    ensures room { HaveRoom row.new.items }
    ensures swept { OnOk result (StaysSwept (shape engine.old) (shape engine.new)) }
    ensures carries { OnOk result (EngineCarries engine.old engine.new row.old.items row.new.items
        (weigh_all parcels.items) nothing_left) }
{
    let mut left = parcels;
    while let Some(first) = left.pop_front() {
        let at = box_number(posts.plan, &first);
        let run = run_from(alloc, posts.plan, &mut left, first, at)?;
        carry(rt, posts, row, engine, at, Mail::Run(run))?;
    }
    Ok(())
}

// Verdicts go through the coordinator's box to its inbox.
fn carry_verdicts<R: Wait, I: Ids>(
    rt: &R,
    posts: &Posts<'_>,
    row: &mut Row,
    engine: &mut Engine<'_, I>,
    verdicts: VecDeque<Verdict>,
) -> Result<(), Memory>
    requires ready { IsReady posts.now.plan.now (cut_in engine.old) engine.old }
    requires row { IsFitRow posts.now.plan.now posts.now.boxes.items row.old.items }
    requires empty { AreEmpty row.old.items }
    requires room { HaveRoom row.old.items }
    ensures ready { OnOk result (IsReady posts.now.plan.now (cut_in engine.old) engine.new) }
    ensures row { IsFitRow posts.now.plan.now posts.now.boxes.items row.new.items }
    ensures still { IsStill engine.old engine.new }
    ensures empty { OnOk result (AreEmpty row.new.items) }
    ensures room { HaveRoom row.new.items }
    ensures swept { OnOk result (StaysSwept (shape engine.old) (shape engine.new)) }
    ensures carries { OnOk result (EngineCarries engine.old engine.new row.old.items row.new.items
        (weigh_verdicts verdicts.items) nothing_left) }
{
    let last = posts.plan.tasks() as usize + posts.plan.ackers() as usize;
    let mut left = verdicts;
    while let Some(verdict) = left.pop_front() {
        carry(rt, posts, row, engine, last, Mail::Verdict(verdict))?;
    }
    Ok(())
}

/// What waits in boxes, in the outboxes of tasks and ackers, and what the coordinator ordered comes
/// to the inboxes that it is for, each packet through a box. Nothing waits elsewhere after it.
pub fn sweep<R: Wait, I: Ids>(
    rt: &R,
    alloc: Global,
    posts: &Posts<'_>,
    row: &mut Row,
    engine: &mut Engine<'_, I>,
) -> Result<(), Memory>
    requires ready { IsReady posts.now.plan.now (cut_in engine.old) engine.old }
    requires row { IsFitRow posts.now.plan.now posts.now.boxes.items row.old.items }
    requires room { HaveRoom row.old.items }
    ensures ready { OnOk result (IsReady posts.now.plan.now (cut_in engine.old) engine.new) }
    ensures row { IsFitRow posts.now.plan.now posts.now.boxes.items row.new.items }
    ensures still { IsStill engine.old engine.new }
    ensures empty { OnOk result (AreEmpty row.new.items) }
    ensures room { HaveRoom row.new.items }
    ensures swept { OnOk result (IsSwept (shape engine.new)) }
    ensures carries { OnOk result (EngineCarries engine.old engine.new row.old.items row.new.items
        nothing_left nothing_left) }
{
    gather_boxes(rt, posts, row, engine)?;
    let orders = engine.take_orders()?;
    carry_parcels(rt, alloc, posts, row, engine, orders)?;
    let parcels = engine.give_parcels()?;
    carry_parcels(rt, alloc, posts, row, engine, parcels)?;
    let verdicts = engine.give_verdicts()?;
    carry_verdicts(rt, posts, row, engine, verdicts)?;
    Ok(())
}
