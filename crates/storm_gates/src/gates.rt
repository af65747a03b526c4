//! What an execution passes before it begins.
use std::hint;
use std::sync::Wait;
use std::sync::atomic::{AtomicBool, Ordering};
use storm_values::{Path, Root};

/// What executions pass. Threads share it.
pub trait Gate: Sync {
    /// Called before a task executes the tuple of this root and path. It may wait.
    fn pass<R: Wait>(&self, rt: &R, task: u32, root: Root, path: &Path);
}

/// It holds nothing up.
#[derive(Drop)]
pub struct OpenGate {}

impl Gate for OpenGate {
    fn pass<R: Wait>(&self, _rt: &R, _task: u32, _root: Root, _path: &Path) {}
}

/// Holds the executions of the tuples at two paths, whatever their roots, each until the other has
/// come, or until it has looked so many times.
#[derive(Drop)]
pub struct HoldUntil {
    first: Path,
    second: Path,
    turns: u64,
    first_came: AtomicBool,
    second_came: AtomicBool,
    first_met: AtomicBool,
    second_met: AtomicBool,
}

impl HoldUntil {
    pub fn new(first: Path, second: Path, turns: u64) -> Self {
        HoldUntil {
            first,
            second,
            turns,
            first_came: AtomicBool::new(false),
            second_came: AtomicBool::new(false),
            first_met: AtomicBool::new(false),
            second_met: AtomicBool::new(false),
        }
    }

    /// Whether each saw the other.
    pub fn met(&self) -> bool {
        let first = self.first_met.load(Ordering::SeqCst);
        let second = self.second_met.load(Ordering::SeqCst);
        first & second
    }

    // Tells that one came, and waits for the other.
    fn hold(&self, mine: &AtomicBool, other: &AtomicBool, met: &AtomicBool) {
        mine.store(true, Ordering::SeqCst);
        for _ in 0..self.turns {
            if other.load(Ordering::SeqCst) {
                met.store(true, Ordering::SeqCst);
                return;
            }
            hint::spin_loop();
        }
    }
}

impl Gate for HoldUntil {
    fn pass<R: Wait>(&self, _rt: &R, _task: u32, _root: Root, path: &Path) {
        if path.as_slice() == self.first.as_slice() {
            self.hold(&self.first_came, &self.second_came, &self.first_met);
        }
        if path.as_slice() == self.second.as_slice() {
            self.hold(&self.second_came, &self.first_came, &self.second_met);
        }
    }
}
