// The real outside. It tells neither what a file holds nor what was taken.
ghost use Rattle.std.specs.Prelude.{◌≡◌, IsSome, None};

use crate::failed::{Failed, count_fault};
use crate::pieces::{read_piece, write_piece};
use crate::shelf::Shelf;
use crate::sink::Sink;
use std::rt::Files;
use std::{fs, io};

/// The files of the system, by their paths. A path that is not there is a failed fetch.
#[derive(Drop)]
pub struct FileShelf<R: Files> {
    rt: R,
    current: Option<R::File>,
    fetches: u64,
    faults: u64,
}

/// The standard output. Nothing is buffered.
#[derive(Drop)]
pub struct OutSink<R: Print> {
    rt: R,
    faults: u64,
}

impl<R: Files> FileShelf<R> {
    pub fn new(rt: R) -> Self
        ensures fetches { ⟦<FileShelf<R> as Shelf>⟧.fetches result ≡ 0 }
        ensures faults { ⟦<FileShelf<R> as Shelf>⟧.faults result ≡ 0 }
    {
        FileShelf {
            rt,
            current: None,
            fetches: 0,
            faults: 0,
        }
    }

    /// How often a call has failed. The count ends at 2^64 - 1.
    pub fn faults(&self) -> u64
        ensures { ⟦<FileShelf<R> as Shelf>⟧.faults self.now ≡ result }
    {
        self.faults
    }
}

impl<R: Files> Shelf for FileShelf<R> {
    ghost holds = { λ _ _ _. ⊥ };

    ghost rest = { λ _. None };

    ghost has_file = { λ s. IsSome s.current };

    ghost fetches = { λ s. s.fetches };

    ghost faults = { λ s. s.faults };

    ghost ready = { λ _. ⊥ };

    ghost one_content = { λ s name a b holds_a holds_b. absurd holds_a };

    fn fetch(&mut self, name: &str) -> Result<(), Failed> {
        self.fetches = self.fetches.wrapping_add(1);
        match fs::open(&self.rt, name) {
            Ok(file) => {
                self.current = Some(file);
                Ok(())
            }
            Err(_) => Err(count_fault(&mut self.faults)),
        }
    }

    fn read(&mut self, buf: &mut [u8]) -> Result<usize, Failed> {
        read_piece(self.current.as_mut().unwrap(), buf, &mut self.faults)
    }
}

impl<R: Print> OutSink<R> {
    pub fn new(rt: R) -> Self
        ensures { ⟦<OutSink<R> as Sink>⟧.faults result ≡ 0 }
    {
        OutSink { rt, faults: 0 }
    }

    /// How often a write has failed. The count ends at 2^64 - 1.
    pub fn faults(&self) -> u64
        ensures { ⟦<OutSink<R> as Sink>⟧.faults self.now ≡ result }
    {
        self.faults
    }
}

impl<R: Print> Sink for OutSink<R> {
    ghost taken = { λ _. None };

    ghost faults = { λ s. s.faults };

    fn write(&mut self, bytes: &[u8]) -> Result<usize, Failed> {
        write_piece(&mut io::writer(&self.rt), bytes, &mut self.faults)
    }
}
