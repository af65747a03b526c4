ghost use Rattle.std.specs.Prelude.{◌≡◌, ◌≢◌, IfOk, OnOk, string_bytes};
ghost use Rattle.topology_reader.specs.Faults.{fault_text};
ghost use Rattle.topology_reader.specs.FirstFault.{first_fault};
ghost use Rattle.topology_test_kit.specs.Told.{told_of};

use std::alloc::{AllocError, Global};
use storm_values::Memory;
use test_kit::{Mismatch, compare};
use topology_reader::{TopoFault, read_topology};

/// What is printed of a file's first fault, or `no fault`.
pub fn told(alloc: Global, bytes: &[u8]) -> Result<String, Memory>
    ensures { IfOk result (λ text. string_bytes text ≡ told_of (first_fault bytes.now)) }
{
    match read_topology(alloc, bytes) {
        Ok(_) => String::from_str(alloc, "no fault"),
        Err(fault) => text_of(alloc, &fault),
    }
}

fn text_of(alloc: Global, fault: &TopoFault) -> Result<String, Memory>
    ensures { IfOk result
        (λ text. (fault.now ≢ TopoFault.Memory) × (string_bytes text ≡ fault_text fault.now)) }
{
    if matches!(fault, TopoFault::Memory) {
        return Err(AllocError);
    }
    fault.text(alloc)
}

/// Compares what is told of a text with what is to be told.
pub fn check_told(alloc: Global, text: &str, want: &str) -> Result<(), Mismatch>
    ensures { OnOk result (told_of (first_fault text.now) ≡ want.now) }
{
    let told = told(alloc, text.as_bytes())?;
    compare(alloc, text, told.as_str(), want)
}
