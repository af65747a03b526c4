// Loads and saves, each with what it is to answer.
use crate::trouble::{Trouble, some_meta};
use resume_meta::{Keeper, Meta, MetaFault, meta_text, read_meta};
use std::alloc::Global;
use storm_values::Memory;

#[derive(Clone, Copy)]
pub enum Call {
    Load,
    // Saves the meta of this text.
    Save(&'static str),
}

#[derive(Clone, Copy)]
pub enum Answer {
    // Nothing is kept.
    Nothing,
    // The meta of this text is kept.
    Kept(&'static str),
    Done,
    Fault(MetaFault),
}

// A call and its answer.
pub type Step = (Call, Answer);

fn is_kept(
    alloc: Global,
    kept: Result<Option<Meta>, MetaFault>,
    want: Answer,
) -> Result<bool, Memory> {
    match (kept, want) {
        (Ok(None), Answer::Nothing) => Ok(true),
        (Ok(Some(meta)), Answer::Kept(text)) => {
            let printed = meta_text(alloc, &meta)?;
            Ok(printed.as_str() == text)
        }
        (Err(fault), Answer::Fault(want)) => Ok(fault == want),
        _ => Ok(false),
    }
}

fn is_done(done: Result<(), MetaFault>, want: Answer) -> bool {
    match (done, want) {
        (Ok(()), Answer::Done) => true,
        (Err(fault), Answer::Fault(want)) => fault == want,
        _ => false,
    }
}

// Whether the call has this answer.
fn answers<P: Keeper>(
    alloc: Global,
    keeper: &mut P,
    call: Call,
    want: Answer,
) -> Result<bool, Trouble> {
    match call {
        Call::Load => Ok(is_kept(alloc, Meta::load(alloc, keeper), want)?),
        Call::Save(text) => {
            let meta = some_meta(read_meta(alloc, text.as_bytes())?)?;
            Ok(is_done(meta.save(alloc, keeper), want))
        }
    }
}

// Whether the calls, one after another, have these answers.
pub fn check_steps<P: Keeper>(
    alloc: Global,
    keeper: &mut P,
    steps: &[Step],
) -> Result<(), Trouble> {
    for (number, step) in steps.iter().enumerate() {
        let (call, want) = *step;
        if !answers(alloc, keeper, call, want)? {
            return Err(Trouble::Case(number));
        }
    }
    Ok(())
}
