//! Steps of whoever has all numbers of the boxes, and so knows what they hold.
ghost use Rattle.std.specs.Prelude.{◌≡◌, ◌<◌, ◌↔◌, ◌+◌, length};
ghost use Rattle.std.specs.Prelude.{IsErr, IsNone, IfErr, IfSome, OnOk, OnErr};
ghost use Rattle.std.specs.Option.{IfNone};
ghost use Rattle.task_queues.specs.declared.rule.View.{View};
ghost use Rattle.box_rows.specs.FitRows.{AreWhole, HoldsMore, IsFitRow, TellsAt};
ghost use Rattle.box_rows.specs.Mails.{IsTrueMail, last_box};
ghost use Rattle.box_rows.specs.Rows.{ArePasses, HasSent, HasTaken, IsSameRow, IsViewAt};
ghost use Rattle.box_rows.specs.Rows.{IsEmpty, IsFull};

use crate::boxes::{Posts, Row};
use crate::mail::Mail;
use crate::steps::{send_at, take_at};
use std::sync::Wait;

// Has the pass to the box of a number say what the box holds, if the pass has all numbers.
fn look_at(posts: &Posts<'_>, row: &mut Row, at: usize)
    requires passes { ArePasses posts.now.plan.now posts.now.boxes.items row.old.items }
    requires there { at < length posts.now.boxes.items }
    ensures passes { ArePasses posts.now.plan.now posts.now.boxes.items row.new.items }
    ensures same { IsSameRow row.old.items row.new.items }
    ensures tells { TellsAt at row.new.items }
{
    posts.boxes[at].look(&mut row[at]);
}

/// Sends mail to the box of a number. It comes back exactly where the box is full.
pub fn send_fit<R: Wait>(
    rt: &R,
    posts: &Posts<'_>,
    row: &mut Row,
    at: usize,
    mail: Mail,
) -> Result<(), Mail>
    requires row { IsFitRow posts.now.plan.now posts.now.boxes.items row.old.items }
    requires there { at < length posts.now.boxes.items }
    requires is_true { IsTrueMail posts.now.plan.now at mail }
    ensures row { IsFitRow posts.now.plan.now posts.now.boxes.items row.new.items }
    ensures sent { OnOk result (HasSent at mail row.old.items row.new.items) }
    ensures holds { OnOk result (HoldsMore mail row.old.items row.new.items) }
    ensures back { IfErr result (λ message. message ≡ mail) }
    ensures same { OnErr result (IsSameRow row.old.items row.new.items) }
    ensures full { (v : View Mail) → IsViewAt at row.old.items v → IsErr result ↔ IsFull v }
{
    let done = send_at(rt, posts, row, at, mail);
    look_at(posts, row, at);
    done
}

/// Takes the oldest mail of the box of a number. There is none exactly where the box is empty.
pub fn take_fit<R: Wait>(rt: &R, posts: &Posts<'_>, row: &mut Row, at: usize) -> Option<Mail>
    requires row { IsFitRow posts.now.plan.now posts.now.boxes.items row.old.items }
    requires there { at < length posts.now.boxes.items }
    ensures row { IsFitRow posts.now.plan.now posts.now.boxes.items row.new.items }
    ensures is_true { IfSome result (IsTrueMail posts.now.plan.now at) }
    ensures taken { IfSome result (λ mail. HasTaken at mail row.old.items row.new.items) }
    ensures holds { IfSome result (λ mail. HoldsMore mail row.new.items row.old.items) }
    ensures same { IfNone result (IsSameRow row.old.items row.new.items) }
    ensures empty { (v : View Mail) → IsViewAt at row.old.items v → IsNone result ↔ IsEmpty v }
{
    let found = take_at(rt, posts, row, at);
    look_at(posts, row, at);
    found
}

/// A row of passes with all numbers says what all boxes hold. It is no step of a box, and never
/// waits.
pub fn look_row(posts: &Posts<'_>, row: &mut Row)
    requires passes { ArePasses posts.now.plan.now posts.now.boxes.items row.old.items }
    requires boxes { length posts.now.boxes.items ≡ last_box posts.now.plan.now + 1 }
    requires whole { AreWhole row.old.items }
    ensures row { IsFitRow posts.now.plan.now posts.now.boxes.items row.new.items }
    ensures same { IsSameRow row.old.items row.new.items }
{
    for n in 0..posts.boxes.len() {
        look_at(posts, row, n);
    }
}
