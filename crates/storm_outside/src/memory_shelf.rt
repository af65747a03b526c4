ghost use Rattle.std.specs.Prelude.{◌≡◌, ℕ, ◌<◌, ◌≤◌, ◌↔◌, List, [], ◌∷◌, ◌++◌, length, take, drop, min, Some, None, IsTrue, IsSome, IfSome, IfOk, IsErr, OnOk, OnErr, position};
ghost use Rattle.std.specs.Str.{bytes_eq};
ghost use Rattle.storm_values.specs.Counts.{Rose, raised};
ghost use Rattle.call_log.specs.Calls.{counted, failing_at, NextFails};
ghost use Rattle.storm_outside.specs.Files.{file_of, one_file};
ghost use Rattle.storm_outside.specs.Pieces.{GivesFirst};
ghost use Rattle.storm_outside.specs.MemoryShelf.{empty_shelf, FetchFails, IsReady};

use crate::failed::{Failed, count_fault};
use crate::shelf::Shelf;
use call_log::Calls;
use std::alloc::Global;
use std::marker::Model;
use storm_values::{Bytes, Memory, Txt};

/// A place in the file of a number.
#[derive(Clone, Copy, Debug)]
struct Place {
    file: usize,
    at: usize,
}

/// Files in memory. A read gives no more than a given number of bytes. A fetch and an `add` take
/// time in proportion to the number of files at most.
#[derive(Debug, Drop)]
pub struct MemShelf {
    files: Vec<(Txt, Bytes)>,
    current: Option<Place>,
    longest: usize,
    fetches: Calls<()>,
    reads: Calls<()>,
    faults: u64,
}

impl Model for MemShelf {
    ghost use Rattle.std.specs.Prelude.{◌≤◌, IfSome};
    ghost use Rattle.storm_outside.specs.MemoryShelf.{ShelfState};

    ghost Value = { ShelfState };

    ghost use Rattle.storm_outside.specs.Place.{rest_at, IsIn};

    ghost view = { λ s. record {
      files = s.files.items;
      rest = rest_at s.files.items s.current;
      longest = s.longest;
      fetches = s.fetches;
      reads = s.reads;
      faults = s.faults;
    } };

    ghost invariant = { λ s. (1 ≤ s.longest) × IfSome s.current (IsIn s.files.items) };
}

// The number of the first file of this name.
fn find_file(files: &[(Txt, Bytes)], name: &str) -> Option<usize>
    ensures { result ≡ position (λ file. bytes_eq file.0 name.now) files.now }
{
    files.iter().position(|file| file.0.as_str() == name)
}

// Copies the first bytes, as many as there are, as there is room for and as may be copied at once.
fn copy_front(from: &[u8], to: &mut [u8], most: usize) -> usize
    ensures count { result ≡ min most (min (length from.now) (length to.old)) }
    ensures copied { take result to.new ≡ take result from.now }
    ensures kept { drop result to.new ≡ drop result to.old }
{
    let count = most.min(from.len().min(to.len()));
    to[..count].copy_from_slice(&from[..count]);
    count
}

impl MemShelf {
    /// A shelf with no file, whose calls do not fail.
    pub fn new(alloc: Global, longest: usize) -> Self
        requires { 1 ≤ longest }
        ensures state { result ≡ empty_shelf longest }
        ensures ready { ⟦<MemShelf as Shelf>⟧.ready result }
        ensures fetches { ⟦<MemShelf as Shelf>⟧.fetches result ≡ 0 }
    {
        MemShelf {
            files: Vec::new(alloc),
            current: None,
            longest,
            fetches: Calls::new(alloc),
            reads: Calls::new(alloc),
            faults: 0,
        }
    }

    /// Whether there is a file of this name.
    pub fn has(&self, name: &str) -> bool
        ensures { IsTrue result ↔ IsSome (file_of self.now.files name.now) }
    {
        find_file(&self.files, name).is_some()
    }

    /// Adds a file. The current file and its place stay.
    pub fn add(&mut self, name: Txt, bytes: Bytes) -> Result<(), Memory>
        requires { file_of self.old.files name ≡ None }
        ensures ok { OnOk result (self.new ≡ record self.old {
          files = self.old.files ++ (name, bytes) ∷ [];
        }) }
        ensures err { OnErr result (self.new ≡ self.old) }
        ensures held { OnOk result (⟦<MemShelf as Shelf>⟧.holds self.new name bytes) }
        ensures kept { (n b : List ℕ) →
            ⟦<MemShelf as Shelf>⟧.holds self.old n b → ⟦<MemShelf as Shelf>⟧.holds self.new n b }
        ensures stays_ready { ⟦<MemShelf as Shelf>⟧.ready self.old
            → ⟦<MemShelf as Shelf>⟧.ready self.new }
    {
        self.files.push((name, bytes))?;
        Ok(())
    }

    /// Lets the fetch of this number fail, the first being number 1.
    pub fn fail_fetch(&mut self, number: u64) -> Result<(), Memory>
        ensures ok { OnOk result (self.new ≡ record self.old {
          fetches = failing_at self.old.fetches number;
        }) }
        ensures err { OnErr result (self.new ≡ self.old) }
    {
        self.fetches.fail(number, ())
    }

    /// Lets the read of this number fail, the first being number 1.
    pub fn fail_read(&mut self, number: u64) -> Result<(), Memory>
        ensures ok { OnOk result (self.new ≡ record self.old {
          reads = failing_at self.old.reads number;
        }) }
        ensures err { OnErr result (self.new ≡ self.old) }
    {
        self.reads.fail(number, ())
    }

    /// How often a call has failed. The count ends at 2^64 - 1.
    pub fn faults(&self) -> u64
        ensures value { result ≡ self.now.faults }
        ensures told { ⟦<MemShelf as Shelf>⟧.faults self.now ≡ result }
    {
        self.faults
    }
}

impl Shelf for MemShelf {
    ghost holds = { λ s name bytes. file_of s.files name ≡ Some bytes };

    ghost rest = { λ s. s.rest };

    ghost has_file = { λ s. IsSome s.rest };

    ghost fetches = { λ s. s.fetches.made };

    ghost faults = { λ s. s.faults };

    ghost ready = { IsReady };

    ghost one_content = { λ s name a b is_a is_b. one_file s.files name a b is_a is_b };

    fn fetch(&mut self, name: &str) -> Result<(), Failed>
        ensures fails { IsErr result ↔ FetchFails self.old name.now }
        ensures found { OnOk result (self.new ≡ record self.old {
          rest = file_of self.old.files name.now;
          fetches = counted self.old.fetches;
        }) }
        ensures refused { OnErr result (self.new ≡ record self.old {
          fetches = counted self.old.fetches;
          faults = raised self.old.faults;
        }) }
        ensures failed { OnErr result (Rose self.old.faults self.new.faults) }
        ensures never_falls { self.old.faults ≤ self.new.faults }
    {
        let fails = self.fetches.count();
        match find_file(&self.files, name) {
            Some(file) if !fails => {
                self.current = Some(Place { file, at: 0 });
                Ok(())
            }
            _ => Err(count_fault(&mut self.faults)),
        }
    }

    fn read(&mut self, buf: &mut [u8]) -> Result<usize, Failed>
        requires buffer { 0 < length buf.old }
        requires fetched { IsSome self.old.rest }
        ensures fails { IsErr result ↔ NextFails self.old.reads }
        ensures count { IfOk result (λ k. IfSome self.old.rest (λ left.
            k ≡ min self.old.longest (min (length left) (length buf.old)))) }
        ensures bytes { IfOk result (λ k. IfSome self.old.rest (λ left.
            GivesFirst k left buf.new self.new.rest)) }
        ensures behind { IfOk result (λ k. drop k buf.new ≡ drop k buf.old) }
        ensures given { OnOk result (self.new ≡ record self.old {
          rest = self.new.rest;
          reads = counted self.old.reads;
        }) }
        ensures refused { OnErr result (self.new ≡ record self.old {
          reads = counted self.old.reads;
          faults = raised self.old.faults;
        }) }
        ensures failed { OnErr result (Rose self.old.faults self.new.faults) }
        ensures never_falls { self.old.faults ≤ self.new.faults }
    {
        if self.reads.count() {
            return Err(count_fault(&mut self.faults));
        }
        let place = self.current.unwrap();
        let left = &self.files[place.file].1.as_slice()[place.at..];
        let count = copy_front(left, buf, self.longest);
        self.current = Some(Place {
            file: place.file,
            at: place.at + count,
        });
        Ok(count)
    }
}
