ghost use Rattle.std.specs.Prelude.{◌≡◌, ℕ, ◌+◌, ◌-◌, ◌%◌, ◌^◌, ◌<◌, ◌≤◌, List, length, take, drop, Option, Some, IsOk, IfOk, OnOk, OnErr, IfSome, IsNone, IsErrOf};
ghost use Rattle.storm_values.specs.Counts.{Rose};
ghost use Rattle.storm_outside.specs.Pieces.{GivesFirst, HasGiven};
ghost use Rattle.storm_outside.specs.declared.shelf.InFault.TheVariants as fault;

use crate::failed::Failed;
use std::alloc::Global;
use storm_values::{Bytes, Memory};
use thiserror::Error;

/// Files by name, of which the one that was fetched last is read.
pub trait Shelf {
    /// The shelf tells that the file of this name has these bytes.
    ghost holds: { Self → List ℕ → List ℕ → Type 0 };

    /// What is left of the current file, where the shelf tells it.
    ghost rest: { Self → Option (List ℕ) };

    /// A file was fetched.
    ghost has_file: { Self → Type 0 };

    /// The number of fetches, modulo 2^64.
    ghost fetches: { Self → ℕ };

    /// How often the outside has failed. The count ends at 2^64 - 1.
    ghost faults: { Self → ℕ };

    /// The shelf tells that neither a fetch of a name that it holds nor a read fails.
    ghost ready: { Self → Type 0 };

    /// Makes the file of this name the current one, at its beginning. Which file is current after a
    /// failed fetch is left open.
    fn fetch(&mut self, name: &str) -> Result<(), Failed>
        ensures begins { OnOk result ((bytes : List ℕ) →
            holds self.old name.now bytes → rest self.new ≡ Some bytes) }
        ensures fetched { OnOk result (has_file self.new) }
        ensures keeps_file { has_file self.old → has_file self.new }
        ensures counted { fetches self.new ≡ (fetches self.old + 1) % 2 ^ 64 }

        // No call changes the files.
        ensures files { (n bytes : List ℕ) → holds self.old n bytes → holds self.new n bytes }
        ensures files_back { (n bytes : List ℕ) → holds self.new n bytes → holds self.old n bytes }

        ensures failed { OnErr result (Rose (faults self.old) (faults self.new)) }
        ensures never_falls { faults self.old ≤ faults self.new }
        ensures ready { ready self.old →
            (bytes : List ℕ) → holds self.old name.now bytes → IsOk result }
        ensures stays_ready { ready self.old → ready self.new };

    /// Reads some of the current file into the front of the buffer, and answers how many bytes.
    /// 0 is the end.
    fn read(&mut self, buf: &mut [u8]) -> Result<usize, Failed>
        requires buffer { 0 < length buf.old }
        requires fetched { has_file self.old }
        ensures count { IfOk result (λ k. k ≤ length buf.old) }
        ensures bytes { IfOk result (λ k. IfSome (rest self.old) (λ left.
            GivesFirst k left buf.new (rest self.new))) }
        ensures untold { IsNone (rest self.old) → IsNone (rest self.new) }
        ensures keeps_file { has_file self.new }
        ensures fetches { fetches self.new ≡ fetches self.old }
        ensures files { (n bytes : List ℕ) → holds self.old n bytes → holds self.new n bytes }
        ensures files_back { (n bytes : List ℕ) → holds self.new n bytes → holds self.old n bytes }

        ensures failed { OnErr result (Rose (faults self.old) (faults self.new)) }
        ensures failed_rest { OnErr result (rest self.new ≡ rest self.old) }
        ensures never_falls { faults self.old ≤ faults self.new }
        ensures ready { ready self.old → IsOk result }
        ensures stays_ready { ready self.old → ready self.new };

    /// A name has one content.
    ghost one_content: { (s : Self) (n a b : List ℕ) → holds s n a → holds s n b → a ≡ b };
}

/// Why a file was not read.
#[derive(Debug, PartialEq, Eq, Drop, Error)]
pub enum InFault {
    #[error("the outside failed")]
    Failed,
    #[error("out of memory")]
    Memory,
}

impl From<Failed> for InFault {
    ghost from_gives = { λ _ e. e ≡ fault.Failed };

    fn from(_: Failed) -> Self {
        InFault::Failed
    }
}

impl From<Memory> for InFault {
    ghost from_gives = { λ _ e. e ≡ fault.Memory };

    fn from(_: Memory) -> Self {
        InFault::Memory
    }
}

/// The most bytes that one read asks for.
const PIECE: usize = 8192;

/// Reads the rest of the current file, or its first `most + 1` bytes where it is longer. The time
/// is in proportion to the bytes read.
pub fn read_all<H: Shelf>(alloc: Global, shelf: &mut H, most: u64) -> Result<Bytes, InFault>
    requires limit { most < 2 ^ 64 - 1 }
    requires fetched { H.has_file shelf.old }
    ensures bytes { IfOk result (λ bytes. IfSome (H.rest shelf.old) (λ left.
        bytes ≡ take (most + 1) left)) }
    ensures rest { IfOk result (λ bytes. IfSome (H.rest shelf.old) (λ left.
        H.rest shelf.new ≡ Some (drop (length bytes) left))) }
    ensures length { IfOk result (λ bytes. length bytes ≤ most + 1) }

    // After either error the shelf has given the first of its bytes.
    ensures prefix { OnErr result (IfSome (H.rest shelf.old) (λ left.
        HasGiven (most + 1) left (H.rest shelf.new))) }

    ensures untold { IsNone (H.rest shelf.old) → IsNone (H.rest shelf.new) }
    ensures keeps_file { H.has_file shelf.new }
    ensures fetches { H.fetches shelf.new ≡ H.fetches shelf.old }
    ensures files { (n bytes : List ℕ) → H.holds shelf.old n bytes → H.holds shelf.new n bytes }
    ensures files_back { (n bytes : List ℕ) → H.holds shelf.new n bytes
        → H.holds shelf.old n bytes }

    ensures failed { IsErrOf result InFault.Failed
        → Rose (H.faults shelf.old) (H.faults shelf.new) }
    ensures never_falls { H.faults shelf.old ≤ H.faults shelf.new }
    ensures ready { H.ready shelf.old → IsErrOf result InFault.Failed → ⊥ }
    ensures stays_ready { H.ready shelf.old → H.ready shelf.new }
{
    let limit = most as usize + 1;
    let mut bytes = Vec::new(alloc);
    let mut buf = [0; PIECE];
    while bytes.len() < limit {
        let wanted = PIECE.min(limit - bytes.len());
        let count = shelf.read(&mut buf[..wanted])?;
        if count == 0 {
            break;
        }
        bytes.extend_from_slice(&buf[..count])?;
    }
    Ok(Bytes::from_vec(bytes))
}
