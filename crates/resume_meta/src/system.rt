// A file of the system. It tells nothing.
ghost use Rattle.std.specs.Prelude.{◌≡◌, ◌-◌, ◌^◌, IfOk};
ghost use Rattle.std.proofs.Math.Nat.{min-le_right};
ghost use Rattle.storm_stores.specs.MemoryStore.{ended};

use crate::keeper::Keeper;
use crate::memory_keeper::count_fault;
use std::alloc::Global;
use std::io::{ErrorKind, Read, Write};
use std::rt::Files;
use std::{fs, io};
use storm_stores::StoreFault;
use storm_values::{Bytes, Memory};

/// Keeps bytes in the file `meta` of a folder. New ones are written into `meta.new` beside it,
/// which then takes its name, so that a process which ends at any moment leaves the old ones or the
/// new.
/// Nothing is synchronized: what was saved outlives the process, and may be lost with the power.
#[derive(Drop)]
pub struct FileKeeper<R: Files> {
    rt: R,
    alloc: Global,
    folder: String,
    path: String,
    beside: String,
    faults: u64,
}

impl<R: Files + Drop> FileKeeper<R> {
    /// A keeper in this folder, which is made with the first save where it is not there.
    pub fn new(rt: R, alloc: Global, folder: &str) -> Result<Self, Memory>
        ensures { IfOk result (λ keeper. ⟦<FileKeeper<R> as Keeper>⟧.fault_count keeper ≡ 0) }
    {
        Ok(FileKeeper {
            rt,
            alloc,
            folder: String::from_str(alloc, folder)?,
            path: format!(in alloc; "{folder}/meta")?,
            beside: format!(in alloc; "{folder}/meta.new")?,
            faults: 0,
        })
    }
}

impl<R: Files> FileKeeper<R> {
    /// How often a call has failed. The count ends at 2^64 - 1.
    pub fn faults(&self) -> u64
        ensures { result ≡ ⟦<FileKeeper<R> as Keeper>⟧.fault_count self.now }
    {
        self.faults
    }

    fn read(&self) -> io::Result<Bytes> {
        let mut bytes = Vec::new(self.alloc);
        fs::open(&self.rt, self.path.as_str())?.read_to_end(&mut bytes)?;
        Ok(Bytes::from_vec(bytes))
    }

    fn write(&self, bytes: &[u8]) -> io::Result<()> {
        // A folder that is there already is no fault, and without one no file is made.
        let _made = fs::create_dir(&self.rt, self.folder.as_str());
        fs::create(&self.rt, self.beside.as_str())?.write_all(bytes)?;
        fs::rename(&self.rt, self.beside.as_str(), self.path.as_str())
    }
}

impl<R: Files> Keeper for FileKeeper<R> {
    ghost holds = { λ _ _. ⊥ };

    ghost fault_count = { λ s. ended s.faults };

    ghost one_content = { λ s a b holds_a holds_b. absurd holds_a };

    ghost count_ends = { λ s. min-le_right s.faults (2 ^ 64 - 1) };

    fn load(&mut self) -> Result<Option<Bytes>, StoreFault> {
        match self.read() {
            Ok(bytes) => Ok(Some(bytes)),
            Err(error) if error.kind() == ErrorKind::NotFound => Ok(None),
            Err(error) if error.kind() == ErrorKind::OutOfMemory => Err(StoreFault::Memory),
            Err(_) => Err(count_fault(&mut self.faults)),
        }
    }

    fn save(&mut self, bytes: &[u8]) -> Result<(), StoreFault> {
        match self.write(bytes) {
            Ok(()) => Ok(()),
            Err(error) if error.kind() == ErrorKind::OutOfMemory => Err(StoreFault::Memory),
            Err(_) => Err(count_fault(&mut self.faults)),
        }
    }
}
