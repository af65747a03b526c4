ghost use Rattle.std.specs.Prelude.{◌≡◌, IfOk};
ghost use Rattle.commit_writes.specs.Writes.{AreWritesOf, IsPathOrderOf};

use crate::writes::writes_in_path_order;
use std::alloc::Global;
use std::marker::Model;
use tuple_account::message_lists::Notes;
use tuple_account::storm_values::{Memory, Seq};
use tuple_account::tree_model::PackedWrites;

/// The list that an attempt was settled with, beside the places of its dones in the order of the
/// paths that they consume. Contracts see the list.
#[derive(Drop)]
pub(crate) struct Settled {
    list: Notes,
    order: Seq<usize>,
}

impl Model for Settled {
    ghost use Rattle.std.specs.Prelude.{List};
    ghost use Rattle.tuple_account.specs.tree_model.declared.messages.AckMsg.{AckMsg};
    ghost use Rattle.commit_writes.specs.Writes.{IsPathOrderOf};

    ghost Value = { List AckMsg };

    ghost view = { λ s. s.list };

    ghost invariant = { λ s. IsPathOrderOf s.list s.order };
}

impl Settled {
    pub fn new(list: Notes, order: Seq<usize>) -> Self
        requires { IsPathOrderOf list order }
        ensures { result ≡ list }
    {
        Settled { list, order }
    }

    /// The writes of the list's dones, in the order of the paths that they consume.
    pub fn writes(&self, alloc: Global) -> Result<PackedWrites, Memory>
        ensures { IfOk result (AreWritesOf self.now) }
    {
        writes_in_path_order(alloc, &self.list, &self.order)
    }

    pub fn into_list(self) -> Notes
        ensures { result ≡ self }
    {
        self.list
    }
}
