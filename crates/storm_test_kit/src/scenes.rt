ghost use Rattle.std.specs.Prelude.{◌≡◌, ◌<◌, ◌+◌, ℕ, List, length, map, string_bytes, IfOk};
ghost use Rattle.std.specs.Borrow.{Bor};
ghost use Rattle.std.specs.Int.{div_ceil};

use sample_topologies::WORD_COUNT;
use std::alloc::Global;
use storm_values::Memory;

/// The words of a run that names no number of workers. It has several, each on a thread.
pub const RUN: [&str; 3] = ["run", "t", "i"];

/// The words of a run by one worker, which takes the same steps in the same order each time.
pub const RUN_ALONE: [&str; 4] = ["run", "t", "i", "1"];

/// The words of a replay.
pub const REPLAY: [&str; 4] = ["replay", "t", "i", "s"];

/// The words of a `plain`.
pub const PLAIN: [&str; 3] = ["plain", "t", "i"];

/// The words of a check.
pub const CHECK: [&str; 2] = ["check", "t"];

/// The words of a call, and the files `t`, `i` and `s`, where they are there.
#[derive(Clone, Copy)]
pub struct Scene<'a> {
    pub words: &'a [&'a str],
    pub topology: Option<&'a str>,
    pub input: Option<&'a str>,
    pub schedule: Option<&'a str>,
}

/// The scene of a run.
pub fn run_of<'a>(topology: &'a str, input: &'a str) -> Scene<'a> {
    Scene {
        words: &RUN,
        topology: Some(topology),
        input: Some(input),
        schedule: None,
    }
}

/// The scene of a run by one worker.
pub fn run_alone<'a>(topology: &'a str, input: &'a str) -> Scene<'a> {
    Scene {
        words: &RUN_ALONE,
        ..run_of(topology, input)
    }
}

/// The scene of a replay.
pub fn replay_of<'a>(topology: &'a str, input: &'a str, schedule: &'a str) -> Scene<'a> {
    Scene {
        words: &REPLAY,
        schedule: Some(schedule),
        ..run_of(topology, input)
    }
}

/// The scene of a `plain`.
pub fn plain_of<'a>(topology: &'a str, input: &'a str) -> Scene<'a> {
    Scene {
        words: &PLAIN,
        ..run_of(topology, input)
    }
}

/// The scene of a run of the word count.
pub fn run_over<'a>(input: &'a str) -> Scene<'a> {
    run_of(WORD_COUNT, input)
}

/// The words of a table as texts of their own.
pub fn owned(alloc: Global, words: &[&str]) -> Result<Vec<String>, Memory>
    ensures { IfOk result
        (λ made. map string_bytes made.items ≡ map (λ (word : Bor (List ℕ)). word.now) words.now) }
{
    let mut made = Vec::new(alloc);
    for word in words {
        made.push(String::from_str(alloc, word)?)?;
    }
    Ok(made)
}

/// How many reads reach the end of a text, the last of which gives nothing.
pub fn reads_of(text: &str, longest: usize) -> u64
    requires { 0 < longest }
    ensures { result ≡ div_ceil (length text.now) longest + 1 }
{
    text.len().div_ceil(longest) as u64 + 1
}
