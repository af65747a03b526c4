ghost use Rattle.std.specs.Prelude.{◌≡◌, ℕ, List, length, Ok, Err};
ghost use Rattle.tree_model.specs.declared.write.Write.{Write};
ghost use Rattle.state_parts.specs.Answers.{Tries};
ghost use Rattle.state_parts.specs.Commits.{AreCommitted, ArePerhapsCommitted, AreTried, Comes, CountsFollow, FailOnceAtMost, IsBadAt, IsFailedPart, NoCountFell};
ghost use Rattle.state_parts.specs.Dealt.{AreDealt, IsGrouped};
ghost use Rattle.state_parts.specs.PartPlans.{AreIndexed, plans_of};

use crate::answer::{Commit, CommitFault, CommitOutcome, Tally};
use crate::parts::StatePart;
use crate::split::split;
use state_cells::GroupedWrites;
use std::alloc::Global;
use storm_stores::CellStore;
use tree_model::bolt_ops::RowOp;
use tree_model::storm_values::Root;

/// Commits a part with its writes of a batch, and notes what it answers.
fn commit_part<C: CellStore, O: RowOp>(
    at: &mut StatePart<C>,
    root: Root,
    writes: &GroupedWrites<'_>,
    custom: &O,
    tally: &mut Tally,
)
    ensures { (own : List Write) → IsGrouped own writes.now →
        Tries C.tells (O.meaning custom.now) C.fault_count root own
        at.old at.new tally.old tally.new }
{
    let before = at.over.faults();
    let answer = at.over.commit(root, writes, custom);
    let after = at.over.faults();
    tally.note(
        answer,
        CommitOutcome::Failed {
            component: at.component,
            part: at.part,
            before,
            after,
        },
    );
}

/// Tries these parts, one after another, each with its writes.
pub(crate) fn commit_run<C: CellStore, O: RowOp>(
    parts: &mut [StatePart<C>],
    root: Root,
    dealt: &[GroupedWrites<'_>],
    custom: &O,
) -> Tally
    requires { length dealt.now ≡ length parts.old }
    ensures { (writes : List Write) → AreDealt writes parts.old dealt.now →
        AreTried C.tells (O.meaning custom.now) C.fault_count root writes
        parts.old parts.new result }
{
    let mut tally = Tally::new();
    for i in 0..parts.len() {
        commit_part(&mut parts[i], root, &dealt[i], custom, &mut tally);
    }
    tally
}

/// Tries every part, one after another, each with its writes.
fn commit_each<C: CellStore, O: RowOp>(
    parts: &mut Vec<StatePart<C>>,
    root: Root,
    dealt: &[GroupedWrites<'_>],
    custom: &O,
) -> Tally
    requires { length dealt.now ≡ length parts.old.items }
    ensures { (writes : List Write) → AreDealt writes parts.old.items dealt.now →
        AreTried C.tells (O.meaning custom.now) C.fault_count root writes
        parts.old.items parts.new.items result }
{
    commit_run(parts, root, dealt, custom)
}

/// Commits a batch to all parts, each with its writes.
pub(crate) fn commit_parts<C: CellStore, O: RowOp>(
    alloc: Global,
    firsts: &[usize],
    parts: &mut Vec<StatePart<C>>,
    commit: &Commit,
    custom: &O,
) -> Result<CommitOutcome, CommitFault>
    requires { AreIndexed firsts.now 0 (plans_of parts.old.items) }
    ensures plans { plans_of parts.new.items ≡ plans_of parts.old.items }
    ensures comes { (result ≡ Err CommitFault.Memory → ⊥) →
        Comes C.tells (O.meaning custom.now) C.fault_count commit.now.root commit.now.writes
        parts.old.items parts.new.items result }
    ensures done { result ≡ Ok CommitOutcome.Done →
        AreCommitted C.tells (O.meaning custom.now) commit.now.root commit.now.writes
        parts.old.items parts.new.items }
    ensures kept { ArePerhapsCommitted C.tells (O.meaning custom.now)
        commit.now.root commit.now.writes parts.old.items parts.new.items }
    ensures failed { (component part before after : ℕ) →
        result ≡ Ok (CommitOutcome.Failed component part before after) →
        IsFailedPart C.fault_count parts.old.items parts.new.items component part before after }
    ensures bad { (key : List ℕ) → result ≡ Err (CommitFault.BadCell key) →
        IsBadAt C.tells parts.old.items key }
    ensures never_falls { NoCountFell C.fault_count parts.old.items parts.new.items }
    ensures counted { (how : CommitOutcome) → result ≡ Ok how →
        CountsFollow C.fault_count how parts.old.items parts.new.items }
    ensures at_most_once { FailOnceAtMost C.fault_count parts.old.items parts.new.items }
{
    let dealt = match split(alloc, firsts, parts, &commit.writes) {
        Ok(dealt) => dealt,
        Err(_) => return Err(CommitFault::Memory),
    };
    commit_each(parts, commit.root, &dealt, custom).answer()
}
