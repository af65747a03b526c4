//! The calls of a pair of a writer and its readers.
ghost use Rattle.std.specs.Prelude.{◌≡◌, ◌<◌, ◌^◌, ◌++◌, ◌∷◌, [], length, map, IfOk, MatchResult, OnOk};
ghost use Rattle.left_right.specs.Sides.{view};
ghost use Rattle.state_reader.specs.Calls.{pending, seen_by, IsReady, IsShown};
ghost use Rattle.state_reader.specs.Commits.{value_after};
ghost use Rattle.state_reader.specs.Views.{newcomer, Begins};
ghost use Rattle.state_reader.specs.declared.change.Change.TheVariants.{End, Write as Written};

use crate::change::Change;
use crate::rule::{Notes, Sees, StoreReader, StoreWriter};
use crate::store::{Seen, Store};
use left_right::writer::Writer;
use std::alloc::{AllocError, Global};
use std::sync::Wait;
use tree_model::Write;
use tree_model::storm_values::{Duplicate, Memory};
use tree_model::topology_plan::Fold;

/// A writer that has published nothing, and a reader.
pub fn open<R: Wait>(
    alloc: Global,
    rt: &R,
    places: usize,
) -> Result<(StoreWriter, StoreReader), Memory>
    requires { (0 < places) × (places < 2 ^ 32) }
    ensures writer { IfOk result (λ made. IsReady made.0 × (seen_by made.0 ≡ [])) }
    ensures reader { IfOk result (λ made. view made.1.place ≡ newcomer) }
{
    let writer: StoreWriter = Writer::new(alloc, Store::new(alloc), Store::new(alloc), places)?;
    match writer.factory().reader() {
        Ok(reader) => Ok((writer, reader)),
        Err(failed) => {
            writer.take(rt);
            Err(failed)
        }
    }
}

/// Publishes a commit. Without memory nothing is shown, and the writer may not publish again.
pub fn publish<R: Wait>(
    rt: &R,
    mut writer: StoreWriter,
    commit: &[Write],
) -> (StoreWriter, Result<(), Memory>)
    requires ready { IsReady writer }
    ensures shown { MatchResult result.1
        (λ _. IsReady result.0 × (seen_by result.0 ≡ seen_by writer ++ commit.now ∷ []))
        (λ _. (seen_by result.0 ≡ seen_by writer) × IsShown result.0) }
{
    match append_all(&mut writer, commit) {
        Ok(()) => writer.publish_as::<Sees, R>(rt),
        Err(failed) => (writer, Err(failed)),
    }
}

/// Appends the changes of a commit.
fn append_all(writer: &mut StoreWriter, commit: &[Write]) -> Result<(), Memory>
    ensures desk { writer.new.desk ≡ writer.old.desk }
    ensures pending { OnOk result (pending writer.new
        ≡ pending writer.old ++ map Written commit.now ++ End ∷ []) }
{
    for place in 0..commit.len() {
        append(writer, Change::Write(commit[place].copy()?))?;
    }
    append(writer, Change::End)
}

fn append(writer: &mut StoreWriter, change: Change) -> Result<(), Memory>
    ensures desk { writer.new.desk ≡ writer.old.desk }
    ensures pending { OnOk result (pending writer.new ≡ pending writer.old ++ change ∷ []) }
{
    writer.append(change).map_err(|_| AllocError)
}

/// A reader that was told what the writer has published. There may be no place for it.
pub fn tell(writer: &mut StoreWriter) -> Result<StoreReader, Memory>
    ensures told { IfOk result (λ note. (view note.place).told ≡ seen_by writer.old) }
    ensures same { seen_by writer.new ≡ seen_by writer.old }
    ensures shown { IsShown writer.old → IsShown writer.new }
    ensures ready { IsReady writer.old → IsReady writer.new }
{
    let mut note = writer.factory().reader()?;
    note.learn::<Notes>(writer.tell::<Notes>());
    Ok(note)
}

/// What the commits come to that the writer has published.
pub fn latest(writer: &StoreWriter, by: Option<Fold>, state: u32, key: &str) -> Seen
    requires { IsShown writer.now }
    ensures commits { result.commits ≡ length (seen_by writer.now) }
    ensures value { result.value
        ≡ value_after by (seen_by writer.now) state key.now }
{
    writer.published().look(by, state, key)
}

/// What the commits come to that are then seen. They begin with all that this reader saw before or
/// was told of.
pub fn read<R: Wait>(
    rt: &R,
    mut reader: StoreReader,
    by: Option<Fold>,
    state: u32,
    key: &str,
) -> (Seen, StoreReader)
    ensures later { Begins (view reader.place).seen (view result.1.place).seen }
    ensures told { Begins (view reader.place).told (view result.1.place).seen }
    ensures commits { result.0.commits ≡ length (view result.1.place).seen }
    ensures value { result.0.value
        ≡ value_after by (view result.1.place).seen state key.now }
{
    for _ in rt.forever() {
        match reader.enter_as::<Sees>() {
            Ok(reading) => {
                let seen = reading.get().look(by, state, key);
                return (seen, reading.leave());
            }
            Err(back) => reader = back,
        }
    }
    unreachable!()
}

/// What `read` answers, by a reader that was told, in the place of one that read before. It waits
/// until the one sees what begins with what the other sees, and compares all changes for that.
pub fn read_told<R: Wait>(
    rt: &R,
    mut reader: StoreReader,
    mut note: StoreReader,
    by: Option<Fold>,
    state: u32,
    key: &str,
) -> (Seen, StoreReader)
    ensures later { Begins (view reader.place).seen (view result.1.place).seen }
    ensures told { Begins (view note.place).told (view result.1.place).seen }
    ensures commits { result.0.commits ≡ length (view result.1.place).seen }
    ensures value { result.0.value
        ≡ value_after by (view result.1.place).seen state key.now }
{
    for _ in rt.forever() {
        let first = match reader.enter_as::<Sees>() {
            Ok(first) => first,
            Err(back) => {
                reader = back;
                continue;
            }
        };
        match note.enter_as::<Sees>() {
            Ok(second) => {
                if second.get().begins_with(first.get()) {
                    let seen = second.get().look(by, state, key);
                    drop(first.leave());
                    return (seen, second.leave());
                }
                note = second.leave();
            }
            Err(back) => note = back,
        }
        reader = first.leave();
    }
    unreachable!()
}
