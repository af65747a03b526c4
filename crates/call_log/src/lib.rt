//! The calls of one kind, counted, of which some are told to fail by their numbers.
#![tactic(auto)]

ghost use Rattle.std.specs.Prelude.{◌≡◌, ◌↔◌, IsTrue, OnOk, OnErr};
ghost use Rattle.call_log.specs.Calls.{NextFails, counted, failing_as, fate_in, next_fate, no_calls};

use std::alloc::Global;
use std::marker::Model;
use storm_values::Memory;

/// The calls of one kind. A call that is to fail is told by its number, the first being number 1,
/// and its fate: what it does all the same, and `()` where there is nothing to say of that.
#[derive(Debug, Drop)]
pub struct Calls<F> {
    made: u64,
    failing: Vec<(u64, F)>,
}

impl<F> Model for Calls<F> {
    ghost use Rattle.call_log.specs.Calls.{CallLog};

    ghost Value = { CallLog F };

    ghost view = { λ c. record { made = c.made; failing = c.failing.items } };
}

impl<F: Copy + Drop> Calls<F> {
    /// No call yet, and none is to fail.
    pub fn new(alloc: Global) -> Self
        ensures { result ≡ no_calls }
    {
        Calls {
            made: 0,
            failing: Vec::new(alloc),
        }
    }

    /// Lets the call of this number fail. Of two fates of one number the first counts.
    pub fn fail(&mut self, number: u64, fate: F) -> Result<(), Memory>
        ensures ok { OnOk result (self.new ≡ failing_as self.old number fate) }
        ensures err { OnErr result (self.new ≡ self.old) }
    {
        self.failing.push((number, fate))?;
        Ok(())
    }

    /// Counts a call, modulo 2^64. Where it is one that fails, tells its fate.
    pub fn next(&mut self) -> Option<F>
        ensures counted { self.new ≡ counted self.old }
        ensures fate { result ≡ next_fate self.old }
    {
        self.made = self.made.wrapping_add(1);
        let made = self.made;
        find_fate(&self.failing, made)
    }

    /// Counts a call, modulo 2^64, and tells whether it is one that fails.
    pub fn count(&mut self) -> bool
        ensures counted { self.new ≡ counted self.old }
        ensures fails { IsTrue result ↔ NextFails self.old }
    {
        self.next().is_some()
    }
}

/// The fate of the call of a number, where it fails.
fn find_fate<F: Copy>(failing: &[(u64, F)], number: u64) -> Option<F>
    ensures { result ≡ fate_in failing.now number }
{
    failing
        .iter()
        .find(|call| call.0 == number)
        .map(|call| call.1)
}
