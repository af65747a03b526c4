ghost use Rattle.std.specs.Prelude.{◌≡◌, ℕ, [], ◌∷◌, ◌++◌, OnOk, OnErr, None};
ghost use Rattle.std.specs.Option.{option_copied};
ghost use Rattle.storm_ids.specs.Script.{list_of, script_words};

use crate::ids::{IdMaker, Ids, Words};
use std::alloc::Global;
use std::marker::Model;
use storm_values::Memory;

/// A list of words, and then numbers that go on by one from `2^32 * (source + 1)`, wrapping at
/// 2^64.
#[derive(Debug, Drop)]
pub struct ScriptSource {
    source: u32,
    words: Words,
    place: usize,
    past: u64,
}

impl Ids for ScriptSource {
    ghost use Rattle.storm_ids.specs.Script.{script_word, StandsAt};

    ghost tells = { λ s words given. ((k : ℕ) → words k ≡ script_word s.source s.words k)
        × StandsAt s.words s.place s.past given };

    fn next(&mut self) -> u64 {
        match self.words.as_slice().get(self.place) {
            Some(word) => {
                self.place += 1;
                *word
            }
            None => {
                let past = self.past;
                self.past = past.wrapping_add(1);
                ((u64::from(self.source) + 1) << 32).wrapping_add(past)
            }
        }
    }
}

/// A list of words for some sources, for runs that name ids. A source without one has the empty
/// list. Words after the lists coincide easily: those with k = 1 and k = 2 of two sources XOR to 0.
/// A source is found in time in proportion to the number of lists.
#[derive(Debug, Drop)]
pub struct ScriptIds {
    lists: Vec<(u32, Words)>,
}

impl Model for ScriptIds {
    ghost use Rattle.std.specs.Prelude.{List, ℕ};

    ghost Value = { List (ℕ × List ℕ) };

    ghost view = { λ s. s.lists.items };
}

// The list of a source.
fn find_list(lists: &[(u32, Words)], source: u32) -> Option<&Words>
    ensures { option_copied result ≡ list_of source lists.now }
{
    for list in lists {
        if list.0 == source {
            return Some(&list.1);
        }
    }
    None
}

impl ScriptIds {
    /// No lists, which takes no memory.
    pub fn new(alloc: Global) -> Self
        ensures lists { result ≡ [] }
        ensures told { ⟦<ScriptIds as IdMaker>⟧.tells result (script_words []) }
    {
        ScriptIds {
            lists: Vec::new(alloc),
        }
    }

    /// Gives a source its list.
    pub fn add(&mut self, source: u32, words: Words) -> Result<(), Memory>
        requires { list_of source self.old ≡ None }
        ensures ok { OnOk result (self.new ≡ self.old ++ (source, words) ∷ []) }
        ensures err { OnErr result (self.new ≡ self.old) }
        ensures told { ⟦<ScriptIds as IdMaker>⟧.tells self.new (script_words self.new) }
    {
        self.lists.push((source, words))?;
        Ok(())
    }
}

impl IdMaker for ScriptIds {
    type I = ScriptSource;

    ghost use Rattle.std.specs.Prelude.{◌≡◌, ℕ};
    ghost use Rattle.storm_ids.specs.Script.{script_words};

    ghost tells = { λ s words. (source k : ℕ) → words source k ≡ script_words s source k };

    fn make(&mut self, source: u32) -> Result<ScriptSource, Memory> {
        let alloc = *self.lists.allocator();
        let words = match find_list(&self.lists, source) {
            Some(words) => Vec::from_slice(alloc, words.as_slice())?,
            None => Vec::new(alloc),
        };
        Ok(ScriptSource {
            source,
            words: Words::from_vec(words),
            place: 0,
            past: 0,
        })
    }
}
