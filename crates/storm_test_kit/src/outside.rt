// Files, an output, ticks, stores and ids in memory.
ghost use Rattle.std.specs.Prelude.{ℕ};
ghost use Rattle.storm_stores.specs.MemoryMaker.{HasMade};

use crate::scenes::Scene;
use std::alloc::Global;
use storm_ids::{ScriptIds, Words};
use storm_outside::{MemShelf, MemSink};
use storm_stores::{FailAt, MemMaker};
use storm_ticks::ScriptTicks;
use storm_values::{Bytes, Indexes, Memory, Txt};
use test_kit::Mismatch;

/// The component and the part of a store, and a call of it that fails.
pub type Failing = (u32, u32, FailAt);

/// The component and the part of a store, and a key with its cell.
pub type Cell = (u32, u32, &'static str, &'static [u8]);

/// The words of the sources 0, 1 and 2 of ids.
pub type Script = [&'static [u64]; 3];

/// The most bytes of one read and of one write, and the numbers of the calls that fail, from
/// 1. None has the number 0.
///
/// Ticks pass as the list says, one item a question, and then none. Where no words are named the
/// ids are those of ChaCha20 with a key of 32 zero bytes. Stores begin with the cells.
#[derive(Clone, Copy)]
pub struct Outside<'a> {
    pub read: usize,
    pub write: usize,
    pub room: usize,
    pub failing_fetch: u64,
    pub failing_read: u64,
    pub failing_write: u64,
    pub ticks: &'a [u32],
    pub words: Option<&'a Script>,
    pub cells: &'a [Cell],
    pub failing: &'a [Failing],
}

/// Nothing fails, no tick passes, and no store has a cell.
pub const CALM: Outside<'static> = Outside {
    read: 8192,
    write: 8192,
    room: 65_536,
    failing_fetch: 0,
    failing_read: 0,
    failing_write: 0,
    ticks: &[],
    words: None,
    cells: &[],
    failing: &[],
};

// ---- files and the output

/// The shelf of a scene. A read gives one byte at least.
pub fn shelf(alloc: Global, scene: Scene<'_>, outside: Outside<'_>) -> Result<MemShelf, Mismatch> {
    let mut shelf = MemShelf::new(alloc, outside.read.max(1));
    add(alloc, &mut shelf, "t", scene.topology)?;
    add(alloc, &mut shelf, "i", scene.input)?;
    add(alloc, &mut shelf, "s", scene.schedule)?;
    shelf.fail_fetch(outside.failing_fetch)?;
    shelf.fail_read(outside.failing_read)?;
    Ok(shelf)
}

fn add(
    alloc: Global,
    shelf: &mut MemShelf,
    name: &str,
    file: Option<&str>,
) -> Result<(), Mismatch> {
    let Some(text) = file else {
        return Ok(());
    };
    if shelf.has(name) {
        return Err(Mismatch::Case(String::from_str(alloc, name)?));
    }
    shelf.add(
        Txt::from_str(alloc, name)?,
        bytes_of(alloc, text.as_bytes())?,
    )?;
    Ok(())
}

/// The sink of a scene. A write takes one byte at least where there is room.
pub fn sink(alloc: Global, outside: Outside<'_>) -> Result<MemSink, Mismatch> {
    let mut sink = MemSink::new(alloc, outside.write.max(1), outside.room)?;
    sink.fail_write(outside.failing_write)?;
    Ok(sink)
}

/// The text that a sink took.
pub fn taken(alloc: Global, sink: &MemSink) -> Result<String, Mismatch> {
    match str::from_utf8(sink.bytes()) {
        Ok(text) => Ok(String::from_str(alloc, text)?),
        Err(_) => Err(Mismatch::Case(String::from_str(alloc, "no text")?)),
    }
}

// ---- stores

/// The stores of a call.
pub fn stores(alloc: Global, outside: Outside<'_>) -> Result<MemMaker, Memory> {
    let mut stores = MemMaker::new(alloc);
    for held in outside.cells {
        let (component, part, key, cell) = *held;
        let key = bytes_of(alloc, key.as_bytes())?;
        hold(&mut stores, component, part, key, bytes_of(alloc, cell)?)?;
    }
    for failing in outside.failing {
        let (component, part, at) = *failing;
        refuse(&mut stores, component, part, at)?;
    }
    Ok(stores)
}

// Gives a key of a part a cell, before any store is made.
fn hold(
    stores: &mut MemMaker,
    component: u32,
    part: u32,
    key: Bytes,
    cell: Bytes,
) -> Result<(), Memory>
    requires { (c p : ℕ) → HasMade stores.old c p → ⊥ }
    ensures { (c p : ℕ) → HasMade stores.new c p → ⊥ }
{
    stores.set(component, part, key, cell)
}

// Lets a call of a part fail, before any store is made.
fn refuse(stores: &mut MemMaker, component: u32, part: u32, at: FailAt) -> Result<(), Memory>
    requires { (c p : ℕ) → HasMade stores.old c p → ⊥ }
    ensures { (c p : ℕ) → HasMade stores.new c p → ⊥ }
{
    stores.fail(component, part, at)
}

fn bytes_of(alloc: Global, bytes: &[u8]) -> Result<Bytes, Memory> {
    Ok(Bytes::from_vec(bytes.to_vec(alloc)?))
}

// ---- ids and ticks

/// Ids by the words of three sources.
pub fn scripted_ids(alloc: Global, script: &Script) -> Result<ScriptIds, Memory> {
    let [first, second, third] = script;
    let mut ids = ScriptIds::new(alloc);
    ids.add(0, words_of(alloc, first)?)?;
    ids.add(1, words_of(alloc, second)?)?;
    ids.add(2, words_of(alloc, third)?)?;
    Ok(ids)
}

fn words_of(alloc: Global, words: &[u64]) -> Result<Words, Memory> {
    Ok(Words::from_vec(words.to_vec(alloc)?))
}

/// Answers to questions for ticks: so many pass at the last of so many questions, so many times.
pub fn ticks_every(
    alloc: Global,
    questions: u32,
    ticks: u32,
    times: u32,
) -> Result<Vec<u32>, Memory> {
    let mut answers = Vec::new(alloc);
    for _time in 0..times {
        for _silent in 1..questions {
            answers.push(0)?;
        }
        answers.push(ticks)?;
    }
    Ok(answers)
}

/// Ticks that pass as a list says.
pub fn scripted_ticks(alloc: Global, ticks: &[u32]) -> Result<ScriptTicks, Memory> {
    Ok(ScriptTicks::new(Indexes::from_vec(ticks.to_vec(alloc)?)))
}
