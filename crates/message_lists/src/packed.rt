ghost use Rattle.std.specs.Prelude.{◌≡◌, ◌<◌, ◌≤◌, ◌+◌, ◌∷◌, ◌++◌, [], ℕ, List, IsTrue, length, slice_get, None, Some, IfOk, IfSome, OnOk, OnErr};
ghost use Rattle.std.specs.Str.{IsUtf8};
ghost use Rattle.tree_model.specs.declared.messages.AckMsg.{AckMsg};
ghost use Rattle.tree_model.specs.declared.messages.AckMsg.TheVariants as msg;
ghost use Rattle.message_lists.specs.Packed.{AreThere, Grows, IsGrown, IsHead, IsNoteOf, IsPiece, IsWholeHead, HasKeyText, HasText, children_from, done_lent, failure_at, failure_of, ids_in, notes_of, note_lent, piece};

use crate::lent::{LentDone, LentNote};
use std::alloc::{AllocError, Global};
use std::marker::Model;
use tree_model::storm_values::{Memory, Root, Seq};
use tree_model::{AckMsg, Done, Draw, Edge, FailNote, LentWrite, Write};

/// How the messages below one head are kept.
#[derive(Clone, Copy, Debug, PartialEq, Eq)]
pub enum Kind {
    /// As they came, each in the list of whole messages.
    Whole,
    /// Dones without a write. What each produced stands right below its path, in order.
    Bolt,
    /// Dones with one write for this part of a state, which produced nothing.
    State { state: u32, part: u32 },
}

/// What messages of siblings share: the root, the parent's path as a piece of the numbers, and
/// where ids come from.
#[derive(Clone, Copy, Debug)]
pub struct Head {
    root: Root,
    draw: Draw,
    at: u32,
    len: u32,
    kind: Kind,
}

// What siblings share beside their parent's path.
#[derive(Clone, Copy)]
struct Shared {
    root: Root,
    draw: Draw,
    kind: Kind,
}

/// What is a message's own: the number of its head, the number of its tuple among its siblings,
/// the tuple's id, and a piece of the ids or of the key bytes, or the place of the whole message.
#[derive(Clone, Copy, Debug)]
pub struct Short {
    head: u32,
    number: u32,
    id: u64,
    at: u32,
    len: u32,
    amount: i64,
}

/// Messages in order. A done of a state takes 32 bytes and those of its key, one of a bolt 32 bytes
/// and 8 for each tuple that it produced, and siblings one after another share 56 bytes. Each other
/// message is kept as it came.
#[derive(Debug, Drop)]
pub struct Notes {
    shorts: Vec<Short>,
    stock: Stock,
}

/// Room for messages.
#[derive(Clone, Copy, Debug)]
pub struct Room {
    shorts: usize,
    heads: usize,
    numbers: usize,
    ids: usize,
    keys: usize,
}

impl Room {
    /// Room for nothing.
    pub fn none() -> Self {
        Room {
            shorts: 0,
            heads: 0,
            numbers: 0,
            ids: 0,
            keys: 0,
        }
    }
}

/// What shorts and heads name places of.
#[derive(Debug, Drop)]
pub struct Stock {
    heads: Vec<Head>,
    numbers: Vec<u32>,
    ids: Vec<u64>,
    keys: Vec<u8>,
    whole: Vec<AckMsg>,
}

impl Model for Notes {
    ghost use Rattle.std.specs.Prelude.{List};
    ghost use Rattle.tree_model.specs.declared.messages.AckMsg.{AckMsg};
    ghost use Rattle.message_lists.specs.Packed.{AreThere, notes_of};

    ghost Value = { List AckMsg };

    ghost view = { λ n. notes_of n.stock n.shorts.items };

    ghost invariant = { λ n. AreThere n.stock n.shorts.items };
}

impl Notes {
    /// No messages. It takes no memory.
    pub fn new(alloc: Global) -> Self
        ensures { result ≡ [] }
    {
        Notes {
            shorts: Vec::new(alloc),
            stock: Stock {
                heads: Vec::new(alloc),
                numbers: Vec::new(alloc),
                ids: Vec::new(alloc),
                keys: Vec::new(alloc),
                whole: Vec::new(alloc),
            },
        }
    }

    /// No messages, with this room.
    pub fn with_room(alloc: Global, room: Room) -> Result<Self, Memory>
        ensures { IfOk result (λ made. made ≡ []) }
    {
        Ok(Notes {
            shorts: Vec::with_capacity(alloc, room.shorts)?,
            stock: Stock {
                heads: Vec::with_capacity(alloc, room.heads)?,
                numbers: Vec::with_capacity(alloc, room.numbers)?,
                ids: Vec::with_capacity(alloc, room.ids)?,
                keys: Vec::with_capacity(alloc, room.keys)?,
                whole: Vec::new(alloc),
            },
        })
    }

    /// Room for as many messages of such sizes, and an eighth more.
    pub fn room(&self) -> Room {
        Room {
            shorts: and_an_eighth(self.shorts.len()),
            heads: and_an_eighth(self.stock.heads.len()),
            numbers: and_an_eighth(self.stock.numbers.len()),
            ids: and_an_eighth(self.stock.ids.len()),
            keys: and_an_eighth(self.stock.keys.len()),
        }
    }

    /// Gives back the memory for which there is no message.
    pub fn trim(&mut self)
        ensures { self.new ≡ self.old }
    {
        self.shorts.shrink_to_fit();
        self.stock.heads.shrink_to_fit();
        self.stock.numbers.shrink_to_fit();
        self.stock.ids.shrink_to_fit();
        self.stock.keys.shrink_to_fit();
        self.stock.whole.shrink_to_fit();
    }

    /// How many there are.
    pub fn len(&self) -> usize
        ensures { result ≡ length self.now }
    {
        self.shorts.len()
    }

    /// Adds a message at the end.
    pub fn push(&mut self, message: AckMsg) -> Result<(), Memory>
        ensures ok { OnOk result (self.new ≡ self.old ++ message ∷ []) }
        ensures err { OnErr result (self.new ≡ self.old) }
    {
        let short = short_for(&mut self.stock, message)?;
        self.shorts.push(short)?;
        Ok(())
    }

    /// Adds a done that is lent in parts. No message is made of it, unless it both produced and
    /// wrote.
    pub fn push_done(&mut self, alloc: Global, done: &LentDone<'_>) -> Result<(), Memory>
        requires text { HasKeyText done.now.write }
        ensures ok { OnOk result (self.new ≡ self.old ++ msg.Done (done_lent done.now) ∷ []) }
        ensures err { OnErr result (self.new ≡ self.old) }
    {
        let short = lent_short(alloc, &mut self.stock, done)?;
        self.shorts.push(short)?;
        Ok(())
    }

    /// The message at a place.
    pub fn get(&self, at: usize) -> LentNote<'_>
        requires { at < length self.now }
        ensures is { slice_get self.now at ≡ Some (note_lent result) }
        ensures text { HasText result }
    {
        let short = self.shorts[at];
        let head = self.stock.heads[short.head as usize];
        match head.kind {
            Kind::Whole => LentNote::Whole(&self.stock.whole[short.at as usize]),
            Kind::Bolt => LentNote::Done(LentDone {
                root: head.root,
                parent: piece_of(&self.stock.numbers, head.at, head.len),
                number: short.number,
                id: short.id,
                produced: piece_of(&self.stock.ids, short.at, short.len),
                draw: head.draw,
                write: None,
            }),
            Kind::State { state, part } => LentNote::Done(LentDone {
                root: head.root,
                parent: piece_of(&self.stock.numbers, head.at, head.len),
                number: short.number,
                id: short.id,
                produced: &[],
                draw: head.draw,
                write: Some(LentWrite {
                    state,
                    part,
                    key: piece_of(&self.stock.keys, short.at, short.len),
                    amount: short.amount,
                }),
            }),
        }
    }

    /// The failure at a place, which is moved, if one stands there.
    pub fn into_failure(self, at: usize) -> Option<FailNote>
        requires { at < length self }
        ensures { result ≡ failure_at self at }
    {
        let Notes { shorts, stock } = self;
        let short = shorts[at];
        let mut whole = stock.whole;
        match stock.heads[short.head as usize].kind {
            Kind::Whole => failure_in(whole.swap_remove(short.at as usize)),
            _ => None,
        }
    }

    /// Copies of the messages, in their order.
    pub fn to_messages(&self, alloc: Global) -> Result<Seq<AckMsg>, Memory>
        ensures { IfOk result (λ made. made ≡ self.now) }
    {
        let mut made = Seq::from_vec(Vec::with_capacity(alloc, self.len())?);
        for at in 0..self.len() {
            let message = self.get(at).to_message(alloc)?;
            made.push(message)?;
        }
        Ok(made)
    }
}

// So many and an eighth more.
fn and_an_eighth(count: usize) -> usize {
    count.saturating_add(count / 8)
}

// A message, if it is a failure.
fn failure_in(message: AckMsg) -> Option<FailNote>
    ensures { result ≡ failure_of message }
{
    match message {
        AckMsg::Failed(note) => Some(note),
        _ => None,
    }
}

// What is kept of a message: a done in parts, if it has the form for it, or the whole message.
#[tactic(auto, using(crate::proofs::Kept::grown_twice))]
fn short_for(stock: &mut Stock, message: AckMsg) -> Result<Short, Memory>
    ensures grows { IsGrown stock.old stock.new }
    ensures note { IfOk result (IsNoteOf stock.new message) }
{
    match parts_short(stock, &message)? {
        Some(short) => Ok(short),
        None => whole_short(stock, message),
    }
}

// What is kept of a message that has the form for parts.
fn parts_short(stock: &mut Stock, message: &AckMsg) -> Result<Option<Short>, Memory>
    ensures grows { IsGrown stock.old stock.new }
    ensures note { IfOk result (λ found. IfSome found (IsNoteOf stock.new message.now)) }
{
    match message {
        AckMsg::Done(done) => done_short(stock, done),
        AckMsg::Init(_) | AckMsg::Failed(_) => Ok(None),
    }
}

// What is kept of a done, if it has the form for it.
fn done_short(stock: &mut Stock, done: &Done) -> Result<Option<Short>, Memory>
    ensures grows { IsGrown stock.old stock.new }
    ensures note { IfOk result (λ found. IfSome found (IsNoteOf stock.new (msg.Done done.now))) }
{
    let path = done.consumed.path.as_slice();
    let Some((number, parent)) = path.split_last() else {
        return Ok(None);
    };
    match done.writes.as_slice() {
        [] => bolt_short(stock, done, parent, *number),
        [write] => state_short(stock, done, parent, *number, write),
        _ => Ok(None),
    }
}

// What is kept of a done that wrote nothing, if what it produced stands right below its path.
fn bolt_short(
    stock: &mut Stock,
    done: &Done,
    parent: &[u32],
    number: u32,
) -> Result<Option<Short>, Memory>
    requires path { done.now.consumed.path ≡ parent.now ++ number ∷ [] }
    requires writes { done.now.writes ≡ [] }
    ensures grows { IsGrown stock.old stock.new }
    ensures note { IfOk result (λ found. IfSome found (IsNoteOf stock.new (msg.Done done.now))) }
{
    if !are_children(done.consumed.path.as_slice(), done.produced.as_slice()) {
        return Ok(None);
    }
    let shared = Shared {
        root: done.root,
        draw: done.draw,
        kind: Kind::Bolt,
    };
    let head = head_for(&mut stock.heads, &mut stock.numbers, shared, parent)?;
    let (at, len) = add_ids(&mut stock.ids, done.produced.as_slice())?;
    Ok(Some(Short {
        head,
        number,
        id: done.consumed.id,
        at,
        len,
        amount: 0,
    }))
}

// What is kept of a done of one write, if it produced nothing.
fn state_short(
    stock: &mut Stock,
    done: &Done,
    parent: &[u32],
    number: u32,
    write: &Write,
) -> Result<Option<Short>, Memory>
    requires path { done.now.consumed.path ≡ parent.now ++ number ∷ [] }
    requires writes { done.now.writes ≡ write.now ∷ [] }
    ensures grows { IsGrown stock.old stock.new }
    ensures note { IfOk result (λ found. IfSome found (IsNoteOf stock.new (msg.Done done.now))) }
{
    if !done.produced.is_empty() {
        return Ok(None);
    }
    let shared = Shared {
        root: done.root,
        draw: done.draw,
        kind: Kind::State {
            state: write.state,
            part: write.part,
        },
    };
    let head = head_for(&mut stock.heads, &mut stock.numbers, shared, parent)?;
    let (at, len) = add_piece(&mut stock.keys, write.key.as_str().as_bytes())?;
    Ok(Some(Short {
        head,
        number,
        id: done.consumed.id,
        at,
        len,
        amount: write.amount,
    }))
}

// What is kept of a done that is lent.
fn lent_short(alloc: Global, stock: &mut Stock, done: &LentDone<'_>) -> Result<Short, Memory>
    requires text { HasKeyText done.now.write }
    ensures grows { IsGrown stock.old stock.new }
    ensures note { IfOk result (IsNoteOf stock.new (msg.Done (done_lent done.now))) }
{
    match &done.write {
        None => lent_bolt(stock, done),
        Some(write) => {
            if done.produced.is_empty() {
                lent_state(stock, done, write)
            } else {
                whole_short(stock, AckMsg::Done(done.to_done(alloc)?))
            }
        }
    }
}

// What is kept of a done that is lent and that wrote nothing.
fn lent_bolt(stock: &mut Stock, done: &LentDone<'_>) -> Result<Short, Memory>
    requires none { done.now.write ≡ None }
    ensures grows { IsGrown stock.old stock.new }
    ensures note { IfOk result (IsNoteOf stock.new (msg.Done (done_lent done.now))) }
{
    let shared = Shared {
        root: done.root,
        draw: done.draw,
        kind: Kind::Bolt,
    };
    let head = head_for(&mut stock.heads, &mut stock.numbers, shared, done.parent)?;
    let (at, len) = add_piece(&mut stock.ids, done.produced)?;
    Ok(Short {
        head,
        number: done.number,
        id: done.id,
        at,
        len,
        amount: 0,
    })
}

// What is kept of a done that is lent, with one write, that produced nothing.
fn lent_state(
    stock: &mut Stock,
    done: &LentDone<'_>,
    write: &LentWrite<'_>,
) -> Result<Short, Memory>
    requires write { done.now.write ≡ Some write.now }
    requires text { IsUtf8 write.now.key.now }
    requires produced { done.now.produced.now ≡ [] }
    ensures grows { IsGrown stock.old stock.new }
    ensures note { IfOk result (IsNoteOf stock.new (msg.Done (done_lent done.now))) }
{
    let shared = Shared {
        root: done.root,
        draw: done.draw,
        kind: Kind::State {
            state: write.state,
            part: write.part,
        },
    };
    let head = head_for(&mut stock.heads, &mut stock.numbers, shared, done.parent)?;
    let (at, len) = add_piece(&mut stock.keys, write.key)?;
    Ok(Short {
        head,
        number: done.number,
        id: done.id,
        at,
        len,
        amount: write.amount,
    })
}

// What is kept of a message as it came.
fn whole_short(stock: &mut Stock, message: AckMsg) -> Result<Short, Memory>
    ensures grows { IsGrown stock.old stock.new }
    ensures note { IfOk result (IsNoteOf stock.new message) }
{
    let head = whole_head(&mut stock.heads)?;
    let at = number_of(stock.whole.len())?;
    stock.whole.push(message)?;
    Ok(Short {
        head,
        number: 0,
        id: 0,
        at,
        len: 0,
        amount: 0,
    })
}

// The number of the head of these parts, which is the last one or a new one.
fn head_for(
    heads: &mut Vec<Head>,
    numbers: &mut Vec<u32>,
    shared: Shared,
    parent: &[u32],
) -> Result<u32, Memory>
    ensures heads { Grows heads.old.items heads.new.items }
    ensures numbers { Grows numbers.old.items numbers.new.items }
    ensures there { IfOk result (λ k. IsHead numbers.new.items heads.new.items k shared.root
        shared.draw parent.now shared.kind) }
{
    let count = heads.len();
    if count > 0 && is_head_of(&heads[count - 1], numbers, shared, parent) {
        return number_of(count - 1);
    }
    let number = number_of(count)?;
    let (at, len) = add_piece(numbers, parent)?;
    heads.push(Head {
        root: shared.root,
        draw: shared.draw,
        at,
        len,
        kind: shared.kind,
    })?;
    Ok(number)
}

// The number of the head of whole messages, which is the last one or a new one.
fn whole_head(heads: &mut Vec<Head>) -> Result<u32, Memory>
    ensures heads { Grows heads.old.items heads.new.items }
    ensures there { IfOk result (IsWholeHead heads.new.items) }
{
    let count = heads.len();
    if count > 0 && heads[count - 1].kind == Kind::Whole {
        return number_of(count - 1);
    }
    let number = number_of(count)?;
    heads.push(Head {
        root: Root {
            txid: 0,
            attempt: 0,
        },
        draw: Draw {
            source: 0,
            first: 0,
        },
        at: 0,
        len: 0,
        kind: Kind::Whole,
    })?;
    Ok(number)
}

// Whether edges stand right below a path, in order and each at its number.
fn are_children(path: &[u32], edges: &[Edge]) -> bool
    ensures { IsTrue result → edges.now ≡ children_from path.now 0 (ids_in edges.now) }
{
    for (number, edge) in edges.iter().enumerate() {
        if !is_child(path, number, edge) {
            return false;
        }
    }
    true
}

// Whether an edge stands right below a path at a number.
fn is_child(path: &[u32], number: usize, edge: &Edge) -> bool
    ensures { IsTrue result → edge.now.path ≡ path.now ++ number ∷ [] }
{
    match edge.path.as_slice().split_last() {
        Some((last, before)) => *last as usize == number && before == path,
        None => false,
    }
}

// Adds the ids of edges at the end: where they begin, and how many they are.
fn add_ids(into: &mut Vec<u64>, edges: &[Edge]) -> Result<(u32, u32), Memory>
    ensures grows { Grows into.old.items into.new.items }
    ensures piece { IfOk result (λ p. IsPiece into.new.items p.0 p.1 (ids_in edges.now)) }
{
    let at = number_of(into.len())?;
    let len = number_of(edges.len())?;
    for edge in edges {
        into.push(edge.id)?;
    }
    Ok((at, len))
}

// Whether a head has these parts.
fn is_head_of(head: &Head, numbers: &[u32], shared: Shared, parent: &[u32]) -> bool
    ensures root { IsTrue result → head.now.root ≡ shared.root }
    ensures draw { IsTrue result → head.now.draw ≡ shared.draw }
    ensures kind { IsTrue result → head.now.kind ≡ shared.kind }
    ensures path { IsTrue result → IsPiece numbers.now head.now.at head.now.len parent.now }
{
    head.root == shared.root
        && head.draw == shared.draw
        && head.kind == shared.kind
        && is_piece(numbers, head.at, head.len, parent)
}

// Whether items are a piece of a list.
fn is_piece(items: &[u32], at: u32, len: u32, wanted: &[u32]) -> bool
    ensures { IsTrue result → IsPiece items.now at len wanted.now }
{
    let begin = at as usize;
    let end = begin + len as usize;
    end <= items.len() && &items[begin..end] == wanted
}

// Adds items at the end: where they begin, and how many they are.
fn add_piece<X: Copy>(into: &mut Vec<X>, items: &[X]) -> Result<(u32, u32), Memory>
    ensures grows { Grows into.old.items into.new.items }
    ensures piece { IfOk result (λ p. IsPiece into.new.items p.0 p.1 items.now) }
{
    let at = number_of(into.len())?;
    let len = number_of(items.len())?;
    into.extend_from_slice(items)?;
    Ok((at, len))
}

// A number of 32 bits.
fn number_of(number: usize) -> Result<u32, Memory>
    ensures { IfOk result (λ n. n ≡ number) }
{
    if number > u32::MAX as usize {
        return Err(AllocError);
    }
    Ok(number as u32)
}

// So many items from a place on.
fn piece_of<X>(items: &[X], at: u32, len: u32) -> &[X]
    requires { at + len ≤ length items.now }
    ensures { result.now ≡ piece items.now at len }
{
    &items[at as usize..at as usize + len as usize]
}
