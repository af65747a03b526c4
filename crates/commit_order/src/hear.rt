ghost use Rattle.std.specs.Prelude.{Some, OnOk, OnErr};
ghost use Rattle.commit_turns.specs.Desks.{timed_of};
ghost use Rattle.commit_turns.specs.Turns.{complete_timed, end_timed, heard, is_closed};
ghost use Rattle.commit_order.specs.Offices.{AddsSome, GoesOn};

use crate::office::Office;
use crate::settled::Settled;
use attempt_fates::{End, Fates};
use tuple_account::acker_core::{Check, Verdict, check_list};
use tuple_account::message_lists::Notes;
use tuple_account::storm_values::{Memory, Root};

impl<'p> Office<'p> {
    /// A verdict is heard.
    pub fn hear(&mut self, verdict: Verdict, fates: &mut Fates) -> Result<(), Memory>
        ensures ok { OnOk result (GoesOn
            (heard self.old.topology self.old.cut (Some verdict) self.old.desk)
            self.old self.new fates.old fates.new) }
        ensures err { OnErr result (AddsSome
            (heard self.old.topology self.old.cut (Some verdict) self.old.desk).ended
            fates.old fates.new) }
    {
        match verdict {
            Verdict::Fails { root, path } => self.end_timed(root, End::Failed(path), fates),
            Verdict::Complete { root, list } => self.complete(root, list, fates),
        }
    }

    // A complete verdict settles a timed attempt where its list is closed, and ends it else.
    fn complete(&mut self, root: Root, list: Notes, fates: &mut Fates) -> Result<(), Memory>
        ensures ok { OnOk result (GoesOn
            (complete_timed self.old.topology self.old.cut list (is_closed list)
            (timed_of root self.old.desk.pending) self.old.desk)
            self.old self.new fates.old fates.new) }
        ensures err { OnErr result (AddsSome
            (complete_timed self.old.topology self.old.cut list (is_closed list)
            (timed_of root self.old.desk.pending) self.old.desk).ended
            fates.old fates.new) }
    {
        let Some(_) = self.flight.timed(root) else {
            return Ok(());
        };
        match check_list(self.alloc, &list)? {
            Check::Closed(order) => {
                self.flight.settle(root, Settled::new(list, order));
                Ok(())
            }
            Check::Left(_) => self.end_timed(root, End::Coincided(list), fates),
        }
    }

    // A timed attempt aborts, where it is one.
    fn end_timed(&mut self, root: Root, end: End, fates: &mut Fates) -> Result<(), Memory>
        ensures ok { OnOk result (GoesOn
            (end_timed self.old.topology self.old.cut end
            (timed_of root self.old.desk.pending) self.old.desk)
            self.old self.new fates.old fates.new) }
        ensures err { OnErr result (AddsSome
            (end_timed self.old.topology self.old.cut end
            (timed_of root self.old.desk.pending) self.old.desk).ended
            fates.old fates.new) }
    {
        let Some(_) = self.flight.timed(root) else {
            return Ok(());
        };
        self.end_aborted(root, end, fates)
    }
}
