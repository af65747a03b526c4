ghost use Rattle.std.specs.Prelude.{◌≡◌, Some, IsSome, IfOk, OnOk, OnErr};
ghost use Rattle.std.specs.Option.{option_map};
ghost use Rattle.commit_order.specs.Offices.{AddsSome, GoesOn, IsCommitOf, wait_of, with_commit};
ghost use Rattle.commit_turns.specs.declared.wait.Wait.{Wait};
ghost use Rattle.commit_turns.specs.Turns.{decided, next_to_commit, ordered};

use crate::office::Office;
use crate::settled::Settled;
use attempt_fates::{Attempt, End, Fates};
use commit_turns::Wait;
use replay_pending::Entry;
use state_parts::{Commit, CommitOutcome};
use std::alloc::Global;
use tuple_account::storm_values::{Memory, Root};

impl<'p> Office<'p> {
    /// The commit of the lowest transaction that was not committed is ordered, where its attempt is
    /// settled.
    pub fn order(&mut self) -> Result<Option<Commit>, Memory>
        ensures commit { IfOk result (IsCommitOf
            (next_to_commit self.old.topology self.old.cut self.old.desk)) }
        ensures ok { OnOk result (self.new ≡ record self.old
            { desk = ordered self.old.topology self.old.cut self.old.desk }) }
    {
        let Some(entry) = self.flight.settled_after(self.committed) else {
            self.out = false;
            return Ok(None);
        };
        let commit = commit_of(self.alloc, entry)?;
        self.out = true;
        Ok(Some(commit))
    }

    /// The attempt whose commit was ordered ends.
    pub fn decide(&mut self, how: CommitOutcome, fates: &mut Fates) -> Result<(), Memory>
        ensures ok { OnOk result (GoesOn
            (decided self.old.topology self.old.cut how self.old.desk)
            self.old self.new fates.old fates.new) }
        ensures err { OnErr result (AddsSome
            (decided self.old.topology self.old.cut how self.old.desk).ended
            fates.old fates.new) }
    {
        self.out = false;
        let Some(root) = self.next_to_commit() else {
            return Ok(());
        };
        match how {
            CommitOutcome::Done => self.end_committed(root, fates),
            CommitOutcome::Failed {
                component,
                part,
                before,
                after,
            } => {
                let end = End::CommitFailed {
                    component,
                    part,
                    before,
                    after,
                };
                self.end_aborted(root, end, fates)
            }
        }
    }

    // The attempt that is committed next ends by its commit.
    fn end_committed(&mut self, root: Root, fates: &mut Fates) -> Result<(), Memory>
        requires { option_map (λ (w : Wait). w.root)
            (next_to_commit self.old.topology self.old.cut self.old.desk) ≡ Some root }
        ensures ok { (w : Wait)
            → next_to_commit self.old.topology self.old.cut self.old.desk ≡ Some w
            → OnOk result (GoesOn (with_commit self.old w) self.old self.new
            fates.old fates.new) }
        ensures err { OnErr result (fates.new ≡ fates.old) }
    {
        let Some(wait) = self.take(root) else {
            unreachable!()
        };
        let Wait {
            root,
            spans,
            start,
            settled,
        } = wait;
        let Some(list) = settled else { unreachable!() };
        self.committed = root.txid;
        fates.push(Attempt {
            root,
            spans,
            start,
            finish: self.flight.tick_number(),
            end: End::Committed(list),
        })
    }

    // The root of the attempt that is committed next.
    fn next_to_commit(&self) -> Option<Root>
        ensures { result ≡ option_map (λ (w : Wait). w.root)
            (next_to_commit self.now.topology self.now.cut self.now.desk) }
    {
        match self.flight.settled_after(self.committed) {
            Some(entry) => Some(entry.root),
            None => None,
        }
    }
}

// The commit of a pending attempt that is settled.
fn commit_of(alloc: Global, entry: &Entry<Settled>) -> Result<Commit, Memory>
    requires { IsSome entry.now.settled }
    ensures { IfOk result (λ commit. IsCommitOf (Some (wait_of entry.now)) (Some commit)) }
{
    let Some(settled) = entry.settled.as_ref() else {
        unreachable!()
    };
    let spans = entry.spans.copy()?;
    let writes = settled.writes(alloc)?;
    Ok(Commit {
        root: entry.root,
        spans,
        writes,
    })
}
