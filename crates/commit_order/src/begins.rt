ghost use Rattle.std.specs.Prelude.{◌≡◌, None, Some, Ok, OnOk, length};
ghost use Rattle.commit_order.specs.Offices.{AreWithin, BeginsNext};
ghost use Rattle.commit_order.specs.declared.begins.Begun.{Begun};
ghost use Rattle.commit_turns.specs.Turns.{begun, free_txid, next_attempt, next_root, next_wait};

use crate::office::Office;
use crate::rows::copied_records;
use record_spans::Spans;
use std::alloc::AllocError;
use taken_records::{marks_are_set, offers_are_runs};
use tuple_account::storm_values::{Memory, Root, Rows};

/// An attempt that begins, and copies of its records.
#[derive(Drop)]
pub(crate) struct Begun {
    pub root: Root,
    pub rows: Rows,
}

impl<'p> Office<'p> {
    /// The next attempt begins with what is offered while some partitions are shut, where one may.
    pub fn begin_next(&mut self, shut: u16) -> Result<Option<Begun>, Memory>
        ensures none { result ≡ Ok None → self.new ≡ self.old
            × (next_wait self.old.topology self.old.cut shut self.old.desk ≡ None) }
        ensures some { (b : Begun) → result ≡ Ok (Some b) → BeginsNext
            (next_wait self.old.topology self.old.cut shut self.old.desk) b.root b.rows
            self.old self.new }
    {
        let Some(root) = self.next_root() else {
            return Ok(None);
        };
        offers_are_runs();
        let Some(spans) = self.offers.offer(root.txid, shut)? else {
            return Ok(None);
        };
        let rows = copied_records(self.alloc, &self.offers, &spans)?;
        self.begin(root, spans)?;
        Ok(Some(Begun { root, rows }))
    }

    // The attempt of a root is pending, and timed from this tick on. Its records are gone.
    fn begin(&mut self, root: Root, spans: Spans) -> Result<(), Memory>
        requires next { next_root self.old.topology self.old.cut self.old.desk ≡ Some root }
        requires spans { AreWithin (length self.old.cut.records) spans }
        ensures { OnOk result (self.new ≡ record self.old {
          desk = begun self.old.topology self.old.cut
              (record { root = root; spans = spans; start = self.old.desk.tick; settled = None })
              self.old.desk;
        }) }
    {
        marks_are_set();
        self.offers.take(&spans);
        match self.flight.begin(root, spans) {
            Ok(()) => Ok(()),
            Err(_) => Err(AllocError),
        }
    }

    // The root that begins next, while fewer are pending than may be.
    fn next_root(&self) -> Option<Root>
        ensures { result ≡ next_root self.now.topology self.now.cut self.now.desk }
    {
        if self.flight.len() >= self.plan.pending() as usize {
            return None;
        }
        let txid = self.free_txid()?;
        self.next_attempt(txid)
    }

    // The next attempt of a transaction.
    fn next_attempt(&self, txid: u64) -> Option<Root>
        ensures { result ≡ next_attempt self.now.topology self.now.cut self.now.desk txid }
    {
        let begun = self.flight.tried(txid).begun;
        if begun < u32::MAX {
            Some(Root {
                txid,
                attempt: begun + 1,
            })
        } else {
            None
        }
    }

    // The lowest transaction that was not committed and has no pending attempt. One of the first
    // that are not committed has none, as many as are pending and one more.
    fn free_txid(&self) -> Option<u64>
        ensures { result ≡ free_txid self.now.topology self.now.cut self.now.desk }
    {
        self.plan.facts();
        self.flight.pending_are_few();
        let committed = self.committed();
        let most = (self.flight.len() as u64 + 1).min(u64::MAX - committed);
        for before in committed..committed + most {
            if !self.flight.has_txid(before + 1) {
                return Some(before + 1);
            }
        }
        None
    }
}
