//! What lies in a box.
ghost use Rattle.std.specs.Prelude.{ℕ};

use event_worlds::acker_core::Verdict;
use event_worlds::tree_model::Parcels;
use task_queues::Truth;

/// What lies in a box: a run of 1 to 64 parcels, all for this box, or a verdict for the
/// coordinator.
#[derive(Drop)]
pub enum Mail {
    Run(Parcels),
    Verdict(Verdict),
}

impl Truth for Mail {
    ghost use Rattle.box_rows.specs.Mails.{IsTrueMail};

    ghost is_true = { IsTrueMail };
}
