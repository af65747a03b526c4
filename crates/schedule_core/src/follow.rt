//! A follower of a run, which is told the commits that were done.
ghost use Rattle.std.specs.Prelude.{◌≡◌};
ghost use Rattle.event_worlds.specs.commit_order.Follows.{IsTaken};
ghost use Rattle.event_worlds.specs.state_parts.declared.answer.CommitOutcome.TheVariants as outcome;
ghost use Rattle.schedule_core.specs.Following.{TellsOf};

use crate::fault::RunFault;
use event_worlds::commit_order::Follow;
use event_worlds::state_parts::{Commit, CommitOutcome};
use storm_stores::StoreFault;

/// Tells a follower a commit that was done, and of one that failed nothing.
pub fn tell<W: Follow>(follow: &mut W, commit: &Commit, how: CommitOutcome) -> Result<(), RunFault>
    requires { how ≡ outcome.Done → IsTaken commit.now.root.txid (W.takes follow.old) }
    ensures { TellsOf W.tells W.takes W.fault_count how commit.now result
        follow.old follow.new }
{
    match how {
        CommitOutcome::Done => tell_done(follow, commit),
        CommitOutcome::Failed { .. } => Ok(()),
    }
}

fn tell_done<W: Follow>(follow: &mut W, commit: &Commit) -> Result<(), RunFault>
    requires { IsTaken commit.now.root.txid (W.takes follow.old) }
    ensures { TellsOf W.tells W.takes W.fault_count outcome.Done commit.now result
        follow.old follow.new }
{
    let txid = commit.root.txid;
    match follow.told(commit) {
        Ok(()) => Ok(()),
        Err(StoreFault::Failed) => Err(RunFault::Follow(txid)),
        Err(StoreFault::Memory) => Err(RunFault::Memory),
    }
}
