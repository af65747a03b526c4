// Files of the system. They tell nothing.
ghost use Rattle.std.specs.Prelude.{◌≡◌, ℕ, ◌-◌, ◌^◌, Contains, string_bytes, IfOk};
ghost use Rattle.std.proofs.Math.Nat.{min-le_right};
ghost use Rattle.storm_stores.specs.MemoryStore.{ended};
ghost use Rattle.part_files.specs.Paths.{path_of};
ghost use Rattle.part_files.specs.declared.system.PartName.{PartName};

use crate::log::Log;
use crate::memory_log::count_fault;
use crate::store::PartStore;
use std::alloc::Global;
use std::fs;
use std::fs::OpenOptions;
use std::io::{ErrorKind, Read, Seek, Write};
use std::rt::Files;
use storm_outside::{Failed, InFault};
use storm_stores::{CellStore, StoreMaker};
use storm_values::{Bytes, Memory};

/// The folder with the files of the parts, where the program runs.
pub const STATE_FOLDER: &str = "storm_state";

/// A file of the system. Nothing is buffered, and nothing is synchronized: what was appended
/// outlives the process, and may be lost with the power.
#[derive(Drop)]
pub struct FileLog<R: Files> {
    file: Option<R::File>,
    faults: u64,
}

impl<R: Files> FileLog<R> {
    /// Opens the file, which is made where it is not there. Where that fails, each call fails.
    pub fn open(rt: &R, path: &str) -> Self
        ensures { ⟦<FileLog<R> as Log>⟧.fault_count result ≡ 0 }
    {
        let file = OpenOptions::new()
            .read(true)
            .append(true)
            .create(true)
            .open(rt, path)
            .ok();
        FileLog { file, faults: 0 }
    }
}

impl<R: Files> Log for FileLog<R> {
    ghost holds = { λ _ _. ⊥ };

    ghost fault_count = { λ s. ended s.faults };

    ghost one_content = { λ s a b holds_a holds_b. absurd holds_a };

    ghost count_ends = { λ s. min-le_right s.faults (2 ^ 64 - 1) };

    fn read(&mut self, alloc: Global) -> Result<Bytes, InFault> {
        let Some(file) = self.file.as_mut() else {
            return Err(InFault::from(count_fault(&mut self.faults)));
        };
        let mut bytes = Vec::new(alloc);
        match file.rewind().and_then(|_| file.read_to_end(&mut bytes)) {
            Ok(_) => Ok(Bytes::from_vec(bytes)),
            Err(error) if error.kind() == ErrorKind::OutOfMemory => Err(InFault::Memory),
            Err(_) => Err(InFault::from(count_fault(&mut self.faults))),
        }
    }

    fn append(&mut self, bytes: &[u8]) -> Result<(), Failed> {
        let Some(file) = self.file.as_mut() else {
            return Err(count_fault(&mut self.faults));
        };
        match file.write_all(bytes) {
            Ok(()) => Ok(()),
            Err(_) => Err(count_fault(&mut self.faults)),
        }
    }

    fn faults(&self) -> u64 {
        self.faults
    }
}

/// A part of a component, by its numbers.
#[derive(Clone, Copy, Debug)]
struct PartName {
    component: u32,
    part: u32,
}

/// Keeps each part in a file of the folder `storm_state`, by the component's number and the part's.
/// The first store that it makes also makes the folder. Where that fails, or a file cannot be
/// read, each call of the store fails.
#[derive(Drop)]
pub struct FileMaker<R: Files> {
    rt: R,
    alloc: Global,
    made: Vec<PartName>,
    faults: u64,
}

impl<R: Files> FileMaker<R> {
    pub fn new(rt: R, alloc: Global) -> Self
        ensures faults { ⟦<FileMaker<R> as StoreMaker>⟧.fault_count result ≡ 0 }
        ensures none_made { (c p : ℕ) → ⟦<FileMaker<R> as StoreMaker>⟧.has_made result c p → ⊥ }
    {
        FileMaker {
            rt,
            alloc,
            made: Vec::new(alloc),
            faults: 0,
        }
    }

    /// How often the stores that came back have failed. The count ends at 2^64 - 1.
    pub fn faults(&self) -> u64
        ensures { ⟦<FileMaker<R> as StoreMaker>⟧.fault_count self.now ≡ result }
    {
        self.faults
    }
}

/// The file of a part.
#[tactic(auto, unfolding(crate::specs::Paths::path_of))]
fn part_path(alloc: Global, component: u32, part: u32) -> Result<String, Memory>
    ensures { IfOk result (λ path. string_bytes path ≡ path_of component part) }
{
    Ok(format!(in alloc; "storm_state/{component}.{part}")?)
}

impl<R: Files> StoreMaker for FileMaker<R> {
    type C = PartStore<FileLog<R>>;

    ghost holds = { λ _ _ _ _. ⊥ };

    ghost has_made = { λ s c p. Contains s.made.items (record { component = c; part = p }) };

    ghost fault_count = { λ s. ended s.faults };

    ghost one_map = { λ s c p a b holds_a holds_b. absurd holds_a };

    ghost count_ends = { λ s. min-le_right s.faults (2 ^ 64 - 1) };

    fn make(&mut self, component: u32, part: u32) -> Result<PartStore<FileLog<R>>, Memory> {
        if self.made.is_empty() {
            // A folder that is there already is no fault, and without one no file opens.
            let _made = fs::create_dir(&self.rt, STATE_FOLDER);
        }
        let path = part_path(self.alloc, component, part)?;
        let store = PartStore::open(self.alloc, FileLog::open(&self.rt, path.as_str()))?;
        self.made.push(PartName { component, part })?;
        Ok(store)
    }

    fn give(&mut self, _component: u32, _part: u32, store: PartStore<FileLog<R>>) {
        self.faults = self.faults.saturating_add(store.faults());
    }
}
