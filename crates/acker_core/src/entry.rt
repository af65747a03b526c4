ghost use Rattle.std.specs.Prelude.{◌≡◌, ◌∷◌, ◌++◌, [], bit_xor, ℕ, List, IfOk, OnOk, OnErr};
ghost use Rattle.rotating_ledger.specs.Told.{told};
ghost use Rattle.tree_model.specs.tuple_tickets.Edges.{xor_ids};
ghost use Rattle.tree_model.specs.Lists.{root_of};
ghost use Rattle.tree_model.specs.declared.messages.AckMsg.TheVariants as msg;
ghost use Rattle.message_lists.specs.Packed.{HasKeyText, children_from, done_lent, note_lent};
ghost use Rattle.acker_core.specs.Entries.{first_failed, tell};
ghost use Rattle.acker_core.specs.Failures.{IsFirstFailure, fails};
ghost use Rattle.acker_core.specs.States.{state_of, state_in};

use crate::verdict::Verdict;
use message_lists::{LentDone, LentNote, Notes, Room};
use rotating_ledger::{AckState, Told};
use std::alloc::Global;
use std::marker::Model;
use tree_model::AckMsg;
use tree_model::storm_values::{Memory, Path, Root};
use tree_model::tuple_tickets::Edges;

/// The messages of a root since its entry began, with what they come to.
#[derive(Debug, Drop)]
pub struct Entry {
    state: AckState,
    list: Notes,
}

impl Model for Entry {
    ghost use Rattle.std.specs.Prelude.{◌≡◌, List};
    ghost use Rattle.tree_model.specs.declared.messages.AckMsg.{AckMsg};
    ghost use Rattle.acker_core.specs.States.{state_of};

    ghost Value = { List AckMsg };

    ghost view = { λ e. e.list };

    ghost invariant = { λ e. e.state ≡ state_of e.list };
}

/// The root of a message.
pub fn root_in(message: &AckMsg) -> Root
    ensures { result ≡ root_of message.now }
{
    match message {
        AckMsg::Init(init) => init.root,
        AckMsg::Done(done) => done.root,
        AckMsg::Failed(note) => note.root,
    }
}

// The XOR of ids.
fn xor_of(edges: &Edges) -> u64
    ensures { result ≡ xor_ids edges.now }
{
    let mut word = 0;
    for edge in edges.as_slice() {
        word ^= edge.id;
    }
    word
}

fn message_state(message: &AckMsg) -> AckState
    ensures { result ≡ state_in message.now }
{
    match message {
        AckMsg::Init(init) => AckState::init(xor_of(&init.edges)),
        AckMsg::Done(done) => AckState::ack(done.consumed.id ^ xor_of(&done.produced)),
        AckMsg::Failed(_) => AckState::fail(),
    }
}

// The XOR of the ids of a path's children, from any number on.
fn xor_of_ids(ids: &[u64]) -> u64
    ensures { (path : List ℕ) (k : ℕ) → result ≡ xor_ids (children_from path k ids.now) }
{
    let mut word = 0;
    for id in ids {
        word ^= id;
    }
    word
}

fn done_state(done: &LentDone<'_>) -> AckState
    ensures { result ≡ state_in (msg.Done (done_lent done.now)) }
{
    AckState::ack(done.id ^ xor_of_ids(done.produced))
}

// The list with no room for more, since it is kept as long as the fates.
fn trimmed(list: Notes) -> Notes
    ensures { result ≡ list }
{
    let mut list = list;
    list.trim();
    list
}

// The place of the first failure.
#[tactic(auto, using(crate::proofs::Failing::not_there, crate::proofs::Failing::is_there, crate::proofs::Failing::none_behind))]
fn first_failure(list: &Notes) -> Option<usize>
    ensures { IsFirstFailure list.now result }
{
    for at in 0..list.len() {
        if is_failure(&list.get(at)) {
            return Some(at);
        }
    }
    None
}

fn is_failure(note: &LentNote<'_>) -> bool
    ensures { result ≡ fails (note_lent note.now) }
{
    matches!(note, LentNote::Whole(AckMsg::Failed(_)))
}

// The path of the first failure.
fn first_path(list: Notes) -> Option<Path>
    ensures { result ≡ first_failed list }
{
    let at = first_failure(&list)?;
    let note = list.into_failure(at)?;
    Some(note.path)
}

impl Entry {
    /// An entry of one message, whose list has this room.
    pub fn new(alloc: Global, room: Room, message: AckMsg) -> Result<Self, Memory>
        ensures { IfOk result (λ entry. entry ≡ message ∷ []) }
    {
        let state = message_state(&message);
        let mut list = Notes::with_room(alloc, room)?;
        list.push(message)?;
        Ok(Entry { state, list })
    }

    /// Adds a message at the end.
    pub fn add(&mut self, message: AckMsg) -> Result<(), Memory>
        ensures ok { OnOk result (self.new ≡ self.old ++ message ∷ []) }
        ensures err { OnErr result (self.new ≡ self.old) }
    {
        let state = message_state(&message);
        self.list.push(message)?;
        self.state.merge(state);
        Ok(())
    }

    /// Adds a done that is lent in parts at the end.
    pub fn add_done(&mut self, alloc: Global, done: &LentDone<'_>) -> Result<(), Memory>
        requires text { HasKeyText done.now.write }
        ensures ok { OnOk result (self.new ≡ self.old ++ msg.Done (done_lent done.now) ∷ []) }
        ensures err { OnErr result (self.new ≡ self.old) }
    {
        let state = done_state(done);
        self.list.push_done(alloc, done)?;
        self.state.merge(state);
        Ok(())
    }

    pub fn told(&self) -> Told
        ensures { result ≡ told (state_of self.now) }
    {
        self.state.told()
    }

    /// What the entry tells of its root. The list is moved.
    pub fn into_verdict(self, root: Root) -> Option<Verdict>
        ensures { result ≡ tell root self }
    {
        let Entry { state, list } = self;
        match state.told() {
            Told::Nothing => None,
            Told::Complete => {
                let list = trimmed(list);
                Some(Verdict::Complete { root, list })
            }
            Told::Fails => match first_path(list) {
                Some(path) => Some(Verdict::Fails { root, path }),
                None => None,
            },
        }
    }
}
