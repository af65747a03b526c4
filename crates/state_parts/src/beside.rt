ghost use Rattle.std.specs.Prelude.{◌≡◌, ◌<◌, ◌≤◌, ◌++◌, List, length};
ghost use Rattle.std.specs.Thread.{IsSend, IsSync};
ghost use Rattle.tree_model.specs.declared.write.Write.{Write};
ghost use Rattle.state_parts.specs.Commits.{AreTried, IsCommit};
ghost use Rattle.state_parts.specs.Dealt.{AreDealt};
ghost use Rattle.state_parts.specs.PartPlans.{AreIndexed, plans_of};

use crate::answer::{Commit, CommitFault, CommitOutcome, Tally};
use crate::commit::commit_run;
use crate::parts::StatePart;
use crate::split::split;
use state_cells::GroupedWrites;
use std::alloc::Global;
use std::marker::{Send, Sync};
use std::thread::{Threads, join_mut};
use storm_stores::CellStore;
use tree_model::bolt_ops::RowOp;
use tree_model::storm_values::Root;

// How many of the parts are for so many of the threads, each with as many as another.
fn parts_of(few: usize, threads: usize, parts: usize) -> usize
    requires { 0 < threads }
    ensures { result ≤ parts }
{
    let each = parts.div_ceil(threads);
    each.saturating_mul(few).min(parts)
}

/// Tries the parts, the halves side by side while there are threads.
#[cycle(halves)]
fn commit_halves<'w, C: CellStore + Send, R: Threads + Sync, O: RowOp>(
    rt: &R,
    root: Root,
    custom: &O,
    threads: usize,
    dealt: &[GroupedWrites<'w>],
    parts: &mut [StatePart<C>],
) -> Tally
    requires { length dealt.now ≡ length parts.old }
    ensures { (writes : List Write) → AreDealt writes parts.old dealt.now →
        AreTried C.tells (O.meaning custom.now) C.fault_count root writes
        parts.old parts.new result }
{
    if threads < 2 || parts.len() < 2 {
        return commit_run(parts, root, dealt, custom);
    }
    let few = threads / 2;
    let cut = parts_of(few, threads, parts.len());
    let (first, rest) = dealt.split_at(cut);
    let (front, back) = parts.split_at_mut(cut);
    both_halves(
        rt,
        root,
        custom,
        few,
        first,
        front,
        threads - few,
        rest,
        back,
    )
}

/// Tries the parts in front on a thread of their own, and those behind on this one.
#[cycle(halves)]
fn both_halves<'w, C: CellStore + Send, R: Threads + Sync, O: RowOp>(
    rt: &R,
    root: Root,
    custom: &O,
    few: usize,
    first: &[GroupedWrites<'w>],
    front: &mut [StatePart<C>],
    others: usize,
    rest: &[GroupedWrites<'w>],
    back: &mut [StatePart<C>],
) -> Tally
    requires few { 0 < few }
    requires others { 0 < others }
    requires front { length first.now ≡ length front.old }
    requires back { length rest.now ≡ length back.old }
    ensures { (writes : List Write) → AreDealt writes front.old first.now →
        AreDealt writes back.old rest.now →
        AreTried C.tells (O.meaning custom.now) C.fault_count root writes
        (front.old ++ back.old) (front.new ++ back.new) result }
{
    let same = root;
    let alike = custom;
    let mut ahead = || -> Tally
        requires { IsSync R.row × IsSend C.row × (length first.now ≡ length front.now) }
        ensures { (writes : List Write) → AreDealt writes front.entry.now first.entry.now →
            AreTried C.tells (O.meaning custom.entry.now) C.fault_count root writes
            front.entry.now front.exit.now result }
    { commit_halves(rt, root, custom, few, first, front) };
    let mut behind = || -> Tally
        requires { IsSync R.row × IsSend C.row × (length rest.now ≡ length back.now) }
        ensures { (writes : List Write) → AreDealt writes back.entry.now rest.entry.now →
            AreTried C.tells (O.meaning alike.entry.now) C.fault_count same writes
            back.entry.now back.exit.now result }
    { commit_halves(rt, same, alike, others, rest, back) };
    let (one, other) = join_mut(rt, &mut ahead, &mut behind);
    one.join(other)
}

/// Commits a batch to all parts, each with its writes, in so many threads at most.
pub(crate) fn commit_parts_beside<C: CellStore + Send, R: Threads + Sync, O: RowOp>(
    rt: &R,
    threads: usize,
    alloc: Global,
    firsts: &[usize],
    parts: &mut Vec<StatePart<C>>,
    commit: &Commit,
    custom: &O,
) -> Result<CommitOutcome, CommitFault>
    requires { AreIndexed firsts.now 0 (plans_of parts.old.items) }
    ensures { IsCommit C.tells (O.meaning custom.now) C.fault_count
        commit.now.root commit.now.writes parts.old.items parts.new.items result }
{
    let dealt = match split(alloc, firsts, parts, &commit.writes) {
        Ok(dealt) => dealt,
        Err(_) => return Err(CommitFault::Memory),
    };
    commit_halves(rt, commit.root, custom, threads, &dealt, parts).answer()
}
