//! Writes whose keys lie one behind another in one buffer.
ghost use Rattle.std.specs.Prelude.{◌≡◌, ◌<◌, ◌≤◌, ◌-◌, take, drop, ◌++◌, ◌∷◌, [], true, All, Some, length};
ghost use Rattle.std.specs.Prelude.{slice_get, IfOk, OnOk};
ghost use Rattle.std.specs.Str.{IsUtf8};
ghost use Rattle.tree_model.specs.Packs.{HasText, IsOfText, begin_at, end_behind, packed_from, write_in};

use crate::write::Write;
use std::alloc::Global;
use std::marker::Model;
use storm_values::Memory;

/// A write but for its key, and where its key ends in the buffer.
#[derive(Clone, Copy, Debug)]
pub struct Head {
    state: u32,
    part: u32,
    amount: i64,
    end: usize,
}

/// Writes in order. Each takes 24 bytes and those of its key.
#[derive(Debug, Drop)]
pub struct PackedWrites {
    heads: Vec<Head>,
    keys: Vec<u8>,
    ghost ends: { end_behind 0 heads.items (length keys.items) ≡ true },
    ghost texts: { All IsOfText (packed_from 0 heads.items keys.items) },
}

impl Model for PackedWrites {
    ghost use Rattle.std.specs.Prelude.{List};
    ghost use Rattle.tree_model.specs.Packs.{packed_from};
    ghost use Rattle.tree_model.specs.declared.write.Write.{Write};

    ghost Value = { List Write };

    ghost view = { λ w. packed_from 0 w.heads.items w.keys.items };
}

/// A write whose key is lent by the buffer.
#[derive(Clone, Copy)]
pub struct LentWrite<'w> {
    /// The state's component number.
    pub state: u32,
    /// The part of the state that has the key, counted from 0.
    pub part: u32,
    /// The key's values as a JSON array.
    pub key: &'w [u8],
    pub amount: i64,
}

impl PackedWrites {
    /// No writes, with room for so many, without their keys.
    pub fn with_capacity(alloc: Global, count: usize) -> Result<Self, Memory>
        ensures { IfOk result (λ made. made ≡ []) }
    {
        let heads = Vec::with_capacity(alloc, count)?;
        Ok(PackedWrites {
            heads,
            keys: Vec::new(alloc),
        })
    }

    /// Adds a write, with its key at the end of the buffer.
    pub fn push(&mut self, write: &Write) -> Result<(), Memory>
        ensures { OnOk result (self.new ≡ self.old ++ write.now ∷ []) }
    {
        let lent = LentWrite {
            state: write.state,
            part: write.part,
            key: write.key.as_str().as_bytes(),
            amount: write.amount,
        };
        self.push_lent(lent)
    }

    /// Adds a write whose key is lent, with the key at the end of the buffer.
    pub fn push_lent(&mut self, write: LentWrite<'_>) -> Result<(), Memory>
        requires text { IsUtf8 write.key.now }
        ensures { OnOk result (self.new ≡ self.old ++ write_in write.entry ∷ []) }
    {
        self.heads.reserve(1)?;
        self.keys.extend_from_slice(write.key)?;
        let end = self.keys.len();
        self.heads.push_reserved(Head {
            state: write.state,
            part: write.part,
            amount: write.amount,
            end,
        });
        Ok(())
    }

    /// How many there are.
    pub fn len(&self) -> usize
        ensures { result ≡ length self.now }
    {
        self.heads.len()
    }

    /// The write at a place.
    pub fn get(&self, at: usize) -> LentWrite<'_>
        requires { at < length self.now }
        ensures { slice_get self.now at ≡ Some (write_in result) }
    {
        let start = begin_of(&self.heads, at);
        let head = self.heads[at];
        LentWrite {
            state: head.state,
            part: head.part,
            key: key_in(&self.keys, start, head.end),
            amount: head.amount,
        }
    }

    /// The keys are texts. It does nothing.
    pub fn keys_are_texts(&self)
        ensures { All HasText self.now }
    {
        let _count = self.heads.len();
    }
}

// Where the key at a place begins.
fn begin_of(heads: &[Head], at: usize) -> usize
    requires { at < length heads.now }
    ensures { result ≡ begin_at 0 heads.now at }
{
    if at == 0 {
        return 0;
    }
    heads[at - 1].end
}

// The bytes of a key.
fn key_in(keys: &[u8], start: usize, end: usize) -> &[u8]
    requires low { start ≤ end }
    requires high { end ≤ length keys.now }
    ensures { result.now ≡ take (end - start) (drop start keys.now) }
{
    &keys[start..end]
}
