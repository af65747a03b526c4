// Commits that are told, each with its answer and what is held after it.
ghost use Rattle.std.specs.Prelude.{◌≡◌, ◌+◌, Some, IfOk};
ghost use Rattle.commit_order.specs.Follows.{IsTaken};

use crate::trouble::Trouble;
use commit_order::Follow;
use kept_commits::KeptCommits;
use record_spans::{Span, Spans};
use resume_meta::MemKeeper;
use state_parts::Commit;
use std::alloc::Global;
use storm_stores::StoreFault;
use storm_values::{Memory, Root};
use tree_model::PackedWrites;

// The first and the last record of a span.
pub type Ends = (u64, u64);

#[derive(Clone, Copy)]
pub enum Answer {
    Done,
    Fault(StoreFault),
}

// A commit of these spans, its answer, and the text that is held then.
#[derive(Clone, Copy)]
pub struct Step {
    pub spans: &'static [Ends],
    pub answer: Answer,
    pub held: &'static str,
}

fn spans_of(alloc: Global, ends: &[Ends]) -> Result<Spans, Memory> {
    let mut spans = Spans::new(alloc);
    for (first, last) in ends {
        spans.push(Span {
            first: *first,
            last: *last,
        })?;
    }
    Ok(spans)
}

pub fn commit_of(alloc: Global, txid: u64, ends: &[Ends]) -> Result<Commit, Memory>
    ensures { IfOk result (λ commit. commit.root.txid ≡ txid) }
{
    let spans = spans_of(alloc, ends)?;
    let writes = PackedWrites::with_capacity(alloc, 0)?;
    Ok(Commit {
        root: Root { txid, attempt: 1 },
        spans,
        writes,
    })
}

// Whether the commit of a transaction that is taken is done.
pub fn is_done<W: Follow>(follow: &mut W, commit: &Commit) -> bool
    requires { IsTaken commit.now.root.txid (W.takes follow.old) }
{
    follow.told(commit).is_ok()
}

pub fn holds(keeper: &MemKeeper, text: &str) -> bool {
    match keeper.held() {
        Some(bytes) => bytes == text.as_bytes(),
        None => false,
    }
}

fn is_answer(told: Result<(), StoreFault>, want: Answer) -> bool {
    match (told, want) {
        (Ok(()), Answer::Done) => true,
        (Err(fault), Answer::Fault(want)) => fault == want,
        _ => false,
    }
}

pub fn next_of(txid: u64) -> Result<u64, Trouble>
    ensures { IfOk result (λ next. next ≡ txid + 1) }
{
    match txid.checked_add(1) {
        Some(next) => Ok(next),
        None => Err(Trouble::Number),
    }
}

// Whether the commit has this answer and this text is held then. It gives the next transaction.
fn check_step(
    alloc: Global,
    kept: &mut KeptCommits<MemKeeper>,
    txid: u64,
    step: Step,
) -> Result<u64, Trouble>
    requires { ⟦<KeptCommits<MemKeeper> as Follow>⟧.takes kept.old ≡ Some txid }
    ensures { IfOk result (λ next.
        ⟦<KeptCommits<MemKeeper> as Follow>⟧.takes kept.new ≡ Some next) }
{
    let commit = commit_of(alloc, txid, step.spans)?;
    let told = kept.told(&commit);
    if !is_answer(told, step.answer) || !holds(&kept.keeper, step.held) {
        return Err(Trouble::Step(txid));
    }
    match told {
        Ok(()) => {}
        Err(_) => return Ok(txid),
    }
    next_of(txid)
}

// Whether commits from a transaction on, one after another, have these answers.
pub fn check_steps(
    alloc: Global,
    kept: &mut KeptCommits<MemKeeper>,
    txid: u64,
    steps: &[Step],
) -> Result<(), Trouble>
    requires { ⟦<KeptCommits<MemKeeper> as Follow>⟧.takes kept.old ≡ Some txid }
{
    let mut next = txid;
    for step in steps {
        next = check_step(alloc, kept, next, *step)?;
    }
    Ok(())
}
