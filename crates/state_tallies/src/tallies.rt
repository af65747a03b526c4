ghost use Rattle.std.specs.Prelude.{◌≡◌, ◌<◌, ◌+◌, ℕ, List, [], All, length, replicate, IfOk, OnOk, OnErr};
ghost use Rattle.state_tallies.specs.Inside.{counts_of, counts_by};
ghost use Rattle.state_tallies.specs.Tallies.{AreFew, AreFewIn, AreInOrder, HasMore, at_key, at_text, capped, count_in, count_of};

use indexmap::IndexMap;
use std::alloc::Global;
use std::marker::Model;
use tree_model::storm_values::{Duplicate, Memory, Seq, Txt};

/// How often a key was counted.
#[derive(Debug, Drop)]
pub struct KeyCount {
    pub key: Txt,
    pub count: u64,
}

type Counts = IndexMap<Txt, u64>;

/// The counts of each state's keys, by the state's component number.
#[derive(Debug, Drop)]
pub struct Tallies {
    states: Vec<Counts>,
}

impl Model for Tallies {
    ghost use Rattle.std.specs.Prelude.{List};
    ghost use Rattle.state_tallies.specs.declared.tallies.KeyCount.{KeyCount};

    ghost Value = { List (List KeyCount) };

    ghost use Rattle.state_tallies.specs.Inside.{counts_by};

    ghost view = { λ tallies. counts_by tallies.states.items };

    ghost use Rattle.state_tallies.specs.Tallies.{AreFew};

    ghost invariant = { λ tallies. AreFew (counts_by tallies.states.items) };
}

impl Tallies {
    /// No counts, of so many components.
    pub fn new(alloc: Global, components: u32) -> Result<Self, Memory>
        ensures length { IfOk result (λ made. length made ≡ components) }
        ensures none { IfOk result
            (λ made. (state : ℕ) (key : List ℕ) → count_of made state key ≡ 0) }
    {
        Ok(Tallies {
            states: no_states(alloc, components)?,
        })
    }

    /// Adds so many to the count of a state's key, which is copied where it is new. Without memory
    /// nothing is added.
    pub fn add(&mut self, state: u32, key: &Txt, more: u64) -> Result<(), Memory>
        requires { state < length self.old }
        ensures length { length self.new ≡ length self.old }
        ensures ok { OnOk result ((s : ℕ) (k : List ℕ) → count_of self.new s k
            ≡ capped (count_of self.old s k + at_key state key.now more s k)) }
        ensures err { OnErr result ((s : ℕ) (k : List ℕ) → count_of self.new s k
            ≡ count_of self.old s k) }
    {
        add_state(&mut self.states, state, key, more)
    }

    /// Adds all counts of another, state by state. Without memory some of them are added.
    pub fn add_all(&mut self, others: Tallies) -> Result<(), Memory>
        requires { length others ≡ length self.old }
        ensures length { length self.new ≡ length self.old }
        ensures ok { OnOk result ((s : ℕ) (k : List ℕ) → count_of self.new s k
            ≡ capped (count_of self.old s k + count_of others s k)) }
    {
        add_states(&mut self.states, others.states)
    }

    /// The counts of each state, whose keys are sorted here, once. A key that was never counted has
    /// none.
    pub fn sorted(self, alloc: Global) -> Result<Seq<Seq<KeyCount>>, Memory>
        ensures length { IfOk result (λ made. length made ≡ length self) }
        ensures counts { IfOk result (λ made. (state : ℕ) (key : List ℕ) →
            count_of made state key ≡ count_of self state key) }
        ensures ordered { IfOk result (λ made. All AreInOrder made) }
    {
        sorted_states(alloc, self.states)
    }

    /// What all counts keep. It does nothing.
    pub fn facts(&self)
        ensures { AreFew self.now }
    {
        let _ = &self.states;
    }

    /// How many components it has counts of.
    pub fn len(&self) -> usize
        ensures { result ≡ length self.now }
    {
        self.states.len()
    }
}

// No counts of so many components.
fn no_states(alloc: Global, components: u32) -> Result<Vec<Counts>, Memory>
    ensures { IfOk result (λ made. counts_by made.items ≡ replicate components []) }
{
    let mut states = Vec::new(alloc);
    for _ in 0..components {
        states.push(no_counts(alloc))?;
    }
    Ok(states)
}

fn no_counts(alloc: Global) -> Counts
    ensures { counts_of result ≡ [] }
{
    IndexMap::new(alloc)
}

// Adds so many to the count of a state's key.
fn add_state(states: &mut Vec<Counts>, state: u32, key: &Txt, more: u64) -> Result<(), Memory>
    requires few { AreFew (counts_by states.old.items) }
    requires within { state < length states.old.items }
    ensures length { length states.new.items ≡ length states.old.items }
    ensures ok { OnOk result ((s : ℕ) (k : List ℕ) → count_of (counts_by states.new.items) s k
        ≡ capped (count_of (counts_by states.old.items) s k + at_key state key.now more s k)) }
    ensures err { OnErr result ((s : ℕ) (k : List ℕ) → count_of (counts_by states.new.items) s k
        ≡ count_of (counts_by states.old.items) s k) }
    ensures few { AreFew (counts_by states.new.items) }
{
    add_to(&mut states[state as usize], key, more)
}

// Adds so many to the count of a key, with one search where it has one.
fn add_to(counts: &mut Counts, key: &Txt, more: u64) -> Result<(), Memory>
    requires { AreFewIn (counts_of counts.old) }
    ensures ok { OnOk result (HasMore (counts_of counts.old) (at_text key.now more)
        (counts_of counts.new)) }
    ensures err { OnErr result (counts_of counts.new ≡ counts_of counts.old) }
    ensures few { AreFewIn (counts_of counts.new) }
{
    match counts.get_mut(key) {
        Some(count) => {
            *count = (*count).saturating_add(more);
            Ok(())
        }
        None => {
            counts.insert(key.copy()?, more)?;
            Ok(())
        }
    }
}

// Adds all counts of other keys. Without memory some of them are added.
fn add_counts(counts: &mut Counts, others: &Counts) -> Result<(), Memory>
    requires { AreFewIn (counts_of counts.old) }
    ensures ok { OnOk result (HasMore (counts_of counts.old) (count_in (counts_of others.now))
        (counts_of counts.new)) }
    ensures few { AreFewIn (counts_of counts.new) }
{
    counts.reserve(others.len())?;
    for (key, count) in others {
        add_to(counts, key, *count)?;
    }
    Ok(())
}

// Adds the counts of each state. Without memory some of them are added.
fn add_states(states: &mut Vec<Counts>, others: Vec<Counts>) -> Result<(), Memory>
    requires few { AreFew (counts_by states.old.items) }
    requires length { length others.items ≡ length states.old.items }
    ensures length { length states.new.items ≡ length states.old.items }
    ensures ok { OnOk result ((s : ℕ) (k : List ℕ) → count_of (counts_by states.new.items) s k
        ≡ capped (count_of (counts_by states.old.items) s k
        + count_of (counts_by others.items) s k)) }
    ensures few { AreFew (counts_by states.new.items) }
{
    for place in 0..others.len() {
        add_counts(&mut states[place], &others[place])?;
    }
    Ok(())
}

// The counts of each state in the order of their keys.
fn sorted_states(alloc: Global, states: Vec<Counts>) -> Result<Seq<Seq<KeyCount>>, Memory>
    ensures length { IfOk result (λ made. length made ≡ length states.items) }
    ensures counts { IfOk result (λ made. (state : ℕ) (key : List ℕ) →
        count_of made state key ≡ count_of (counts_by states.items) state key) }
    ensures ordered { IfOk result (λ made. All AreInOrder made) }
{
    let mut made = Seq::new(alloc);
    for counts in states {
        made.push(sorted_counts(alloc, counts)?)?;
    }
    Ok(made)
}

// The counts in the order of their keys.
fn sorted_counts(alloc: Global, mut counts: Counts) -> Result<Seq<KeyCount>, Memory>
    ensures counts { IfOk result
        (λ made. (key : List ℕ) → count_in made key ≡ count_in (counts_of counts) key) }
    ensures ordered { IfOk result AreInOrder }
{
    counts.sort_keys()?;
    counts_in(alloc, counts)
}

fn counts_in(alloc: Global, counts: Counts) -> Result<Seq<KeyCount>, Memory>
    ensures { IfOk result (λ made. made ≡ counts_of counts) }
{
    let made = counts
        .into_iter()
        .map(|(key, count)| KeyCount { key, count })
        .collect(alloc)?;
    Ok(Seq::from_vec(made))
}
