//! One step at one box, under the row's pass to it.
ghost use Rattle.std.specs.Prelude.{◌≡◌, ◌<◌, ◌↔◌, length, map};
ghost use Rattle.std.specs.Prelude.{IsErr, IsNone, IfErr, IfSome, OnOk, OnErr};
ghost use Rattle.std.specs.Option.{IfNone};
ghost use Rattle.pass_numbers.specs.Numbers.{IsWhole};
ghost use Rattle.task_queues.specs.Books.{numbers_of};
ghost use Rattle.task_queues.specs.declared.rule.View.{View};
ghost use Rattle.box_rows.specs.declared.mail.Mail.{Mail};
ghost use Rattle.box_rows.specs.Mails.{IsTrueMail};
ghost use Rattle.box_rows.specs.Rows.{ArePasses, HasSent, HasTaken, IsSameRow, IsViewAt};
ghost use Rattle.box_rows.specs.Rows.{CouldBeEmpty, CouldBeFull, IsEmpty, IsFull, numbers_at};

use crate::boxes::{Posts, Row};
use crate::mail::Mail;
use std::sync::Wait;

/// Sends mail to the box of a number. It comes back where there is no room.
pub fn send_at<R: Wait>(
    rt: &R,
    posts: &Posts<'_>,
    row: &mut Row,
    at: usize,
    mail: Mail,
) -> Result<(), Mail>
    requires passes { ArePasses posts.now.plan.now posts.now.boxes.items row.old.items }
    requires there { at < length posts.now.boxes.items }
    requires is_true { IsTrueMail posts.now.plan.now at mail }
    ensures passes { ArePasses posts.now.plan.now posts.now.boxes.items row.new.items }
    ensures sent { OnOk result (HasSent at mail row.old.items row.new.items) }
    ensures back { IfErr result (λ message. message ≡ mail) }
    ensures same { OnErr result (IsSameRow row.old.items row.new.items) }
    ensures full { OnErr result (CouldBeFull at row.old.items) }
    ensures whole { (v : View Mail) → IsViewAt at row.old.items v → IsWhole (numbers_of v)
        → IsErr result ↔ IsFull v }
    ensures numbers { map numbers_at row.new.items ≡ map numbers_at row.old.items }
{
    posts.boxes[at].send(rt, &mut row[at], mail)
}

/// Takes the oldest mail of the box of a number.
pub fn take_at<R: Wait>(rt: &R, posts: &Posts<'_>, row: &mut Row, at: usize) -> Option<Mail>
    requires passes { ArePasses posts.now.plan.now posts.now.boxes.items row.old.items }
    requires there { at < length posts.now.boxes.items }
    ensures passes { ArePasses posts.now.plan.now posts.now.boxes.items row.new.items }
    ensures is_true { IfSome result (IsTrueMail posts.now.plan.now at) }
    ensures taken { IfSome result (λ mail. HasTaken at mail row.old.items row.new.items) }
    ensures same { IfNone result (IsSameRow row.old.items row.new.items) }
    ensures empty { IfNone result (CouldBeEmpty at row.old.items) }
    ensures whole { (v : View Mail) → IsViewAt at row.old.items v → IsWhole (numbers_of v)
        → IsNone result ↔ IsEmpty v }
    ensures numbers { map numbers_at row.new.items ≡ map numbers_at row.old.items }
{
    posts.boxes[at].take(rt, &mut row[at])
}
