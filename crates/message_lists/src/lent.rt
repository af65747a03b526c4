ghost use Rattle.std.specs.Prelude.{◌≡◌, ◌++◌, ◌∷◌, [], map, IfOk, OnOk};
ghost use Rattle.std.specs.Option.{option_to_list};
ghost use Rattle.std.specs.Str.{IsUtf8};
ghost use Rattle.tree_model.specs.Packs.{write_in};
ghost use Rattle.message_lists.specs.Packed.{HasKeyText, HasText, children_from, done_lent, note_lent};

use std::alloc::{AllocError, Global};
use tree_model::storm_values::{Duplicate, Few, Memory, Path, Root, Txt};
use tree_model::{AckMsg, Done, Draw, Edge, Edges, LentWrite, Write};

/// A message that a list lends.
#[derive(Clone, Copy)]
pub enum LentNote<'n> {
    /// It is kept as it came.
    Whole(&'n AckMsg),
    /// It is kept in parts.
    Done(LentDone<'n>),
}

/// A done whose parts a list lends. What it produced stands right below its path, in order.
#[derive(Clone, Copy)]
pub struct LentDone<'n> {
    pub root: Root,
    /// The path of the parent's tuple.
    pub parent: &'n [u32],
    /// Which child of the parent the consumed tuple is.
    pub number: u32,
    /// The id of the consumed edge.
    pub id: u64,
    /// The ids of the produced edges.
    pub produced: &'n [u64],
    pub draw: Draw,
    pub write: Option<LentWrite<'n>>,
}

impl LentNote<'_> {
    /// A copy of the message.
    pub fn to_message(&self, alloc: Global) -> Result<AckMsg, Memory>
        requires text { HasText self.now }
        ensures { IfOk result (λ made. made ≡ note_lent self.now) }
    {
        match self {
            LentNote::Whole(note) => note.copy(),
            LentNote::Done(done) => Ok(AckMsg::Done(done.to_done(alloc)?)),
        }
    }
}

impl LentDone<'_> {
    // The done by itself.
    pub(crate) fn to_done(&self, alloc: Global) -> Result<Done, Memory>
        requires text { HasKeyText self.now.write }
        ensures { IfOk result (λ made. made ≡ done_lent self.now) }
    {
        let path = Path::from_slice(alloc, self.parent)?.child(self.number)?;
        let produced = children_of(alloc, &path, self.produced)?;
        let writes = writes_of(alloc, &self.write)?;
        Ok(Done {
            root: self.root,
            consumed: Edge { path, id: self.id },
            produced,
            draw: self.draw,
            writes,
        })
    }
}

// Edges of these ids at the children of a path.
#[tactic(auto, using(crate::proofs::Children::one_child_more))]
fn children_of(alloc: Global, path: &Path, ids: &[u64]) -> Result<Edges, Memory>
    ensures { IfOk result (λ made. made ≡ children_from path.now 0 ids.now) }
{
    let mut made = Edges::from_vec(Vec::with_capacity(alloc, ids.len())?);
    for (number, id) in ids.iter().enumerate() {
        made.push(child_of(path, number, *id)?)?;
    }
    Ok(made)
}

// The edge of an id at a child of a path.
fn child_of(path: &Path, number: usize, id: u64) -> Result<Edge, Memory>
    ensures { IfOk result
        (λ made. made ≡ record { path = path.now ++ number ∷ []; id = id }) }
{
    if number > u32::MAX as usize {
        return Err(AllocError);
    }
    let path = path.child(number as u32)?;
    Ok(Edge { path, id })
}

// The write, if there is one.
fn writes_of(alloc: Global, write: &Option<LentWrite<'_>>) -> Result<Few<Write>, Memory>
    requires text { HasKeyText write.now }
    ensures { IfOk result (λ made. made ≡ map write_in (option_to_list write.now)) }
{
    match write {
        Some(write) => Ok(Few::one(alloc, copy_of(alloc, write)?)),
        None => Ok(Few::new(alloc)),
    }
}

fn copy_of(alloc: Global, write: &LentWrite<'_>) -> Result<Write, Memory>
    requires text { IsUtf8 write.now.key.now }
    ensures { IfOk result (λ made. made ≡ write_in write.now) }
{
    match str::from_utf8(write.key) {
        Ok(key) => Ok(Write {
            state: write.state,
            part: write.part,
            key: Txt::from_str(alloc, key)?,
            amount: write.amount,
        }),
        Err(_) => Err(AllocError),
    }
}
