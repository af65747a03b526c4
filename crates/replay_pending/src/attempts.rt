ghost use Rattle.std.specs.Prelude.{◌≡◌, ◌<◌, ◌+◌, OnOk, OnErr};
ghost use Rattle.std.specs.FinMap as fin_map;
ghost use Rattle.replay_pending.specs.InFlight.{tried, with_aborted, with_begun};

use std::alloc::{AllocError, Global};
use std::collections::HashMap;
use std::marker::Model;
use storm_values::Memory;

/// How many attempts of a transaction were begun, and how many of them aborted.
#[derive(Clone, Copy, PartialEq, Eq)]
pub struct Tried {
    pub begun: u32,
    pub aborted: u32,
}

/// How many attempts of each transaction were begun and aborted. Contracts see a finite map, in
/// which a transaction without an attempt need not stand.
#[derive(Drop)]
pub struct Tries {
    counts: HashMap<u64, Tried>,
}

impl Model for Tries {
    ghost use Rattle.std.specs.Ordering.{nat_cmp};
    ghost use Rattle.std.specs.FinMap as fin_map;
    ghost use Rattle.std.specs.Coded.{coded_ℕ};
    ghost use Rattle.replay_pending.specs.declared.attempts.Tried.{Tried};
    ghost use Rattle.replay_pending.specs.InFlight.{tried_code};

    ghost Value = { fin_map.FinMap nat_cmp Tried };

    ghost coded = { fin_map.code coded_ℕ tried_code };

    ghost view = { λ t. fin_map.from_entries t.counts.entries };
}

impl Tries {
    pub fn new(alloc: Global) -> Self
        ensures { result ≡ fin_map.empty }
    {
        Tries {
            counts: HashMap::new(alloc),
        }
    }

    pub fn tried(&self, txid: u64) -> Tried
        ensures { result ≡ tried txid self.now }
    {
        match self.counts.get(&txid) {
            Some(tried) => *tried,
            None => Tried {
                begun: 0,
                aborted: 0,
            },
        }
    }

    /// One more attempt was begun, which has this number.
    pub fn begin(&mut self, txid: u64, number: u32) -> Result<(), Memory>
        ensures ok { OnOk result (self.new ≡ with_begun txid number self.old) }
        ensures err { OnErr result (self.new ≡ self.old) }
    {
        let tried = Tried {
            begun: number,
            aborted: self.tried(txid).aborted,
        };
        match self.counts.insert(txid, tried) {
            Ok(_) => Ok(()),
            Err(_) => Err(AllocError),
        }
    }

    /// One more attempt aborted. It takes no memory.
    pub fn abort(&mut self, txid: u64)
        requires { (tried txid self.old).aborted < (tried txid self.old).begun }
        ensures { self.new ≡ with_aborted txid self.old }
    {
        if let Some(tried) = self.counts.get_mut(&txid) {
            *tried = one_aborted(*tried);
        }
    }
}

// One more of the attempts aborted.
fn one_aborted(tried: Tried) -> Tried
    requires { tried.aborted < tried.begun }
    ensures { result ≡ record tried { aborted = tried.aborted + 1 } }
{
    Tried {
        begun: tried.begun,
        aborted: tried.aborted + 1,
    }
}
