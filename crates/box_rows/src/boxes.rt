//! The boxes of a plan, and the first passes to them.
ghost use Rattle.std.specs.Prelude.{◌≡◌, map, IfOk};
ghost use Rattle.task_queues.specs.Passes.{view_of};
ghost use Rattle.box_rows.specs.FitRows.{IsFitRow};
ghost use Rattle.box_rows.specs.FirstRow.{first_views};

use crate::mail::Mail;
use event_worlds::storm_values::Memory;
use event_worlds::topology_plan::Plan;
use std::alloc::Global;
use task_queues::{Mailbox, Pass};

// How many messages a box holds at most.
const CAPACITY: u32 = 256;

/// The boxes of all tasks, of all ackers and of the coordinator, in this order. Threads share them.
#[derive(Drop)]
pub struct Posts<'p> {
    pub plan: &'p Plan,
    pub boxes: Vec<Mailbox<Mail>>,
}

/// A pass to each box, in the order of the boxes.
pub type Row = Vec<Pass<Mail>>;

/// The boxes of a plan, and a row of passes to them.
#[derive(Drop)]
pub struct Boxes<'p> {
    pub posts: Posts<'p>,
    pub row: Row,
}

impl<'p> Boxes<'p> {
    /// Empty boxes, each for 256 messages, and the one pass to each. No later call makes a box.
    pub fn new(alloc: Global, plan: &'p Plan) -> Result<Boxes<'p>, Memory>
        ensures plan { IfOk result (λ made. made.posts.plan.now ≡ plan.now) }
        ensures row { IfOk result (λ made.
            IsFitRow plan.now made.posts.boxes.items made.row.items) }
        ensures first { IfOk result (λ made. map view_of made.row.items ≡ first_views plan.now) }
    {
        plan.facts();
        let count = plan.tasks() + plan.ackers() + 1;
        let mut boxes = Vec::new(alloc);
        let mut row = Vec::new(alloc);
        for owner in 0..count {
            let (mailbox, pass) = Mailbox::new(alloc, plan, owner, CAPACITY)?;
            boxes.push(mailbox)?;
            row.push(pass)?;
        }
        Ok(Boxes {
            posts: Posts { plan, boxes },
            row,
        })
    }
}
