// Gates of these tests.
use event_worlds::storm_values::{Path, Root};
use std::hint;
use std::sync::Wait;
use std::sync::atomic::{AtomicBool, AtomicU64, Ordering};
use storm_gates::Gate;

/// Counts executions, those of first tuples apart. Each waits until the gate is open.
#[derive(Drop)]
pub struct Counting {
    all: AtomicU64,
    firsts: AtomicU64,
    open: AtomicBool,
}

// How often an execution looks at most.
const LOOKS: u64 = 2_000_000_000;

impl Counting {
    pub fn new(open: bool) -> Self {
        Counting {
            all: AtomicU64::new(0),
            firsts: AtomicU64::new(0),
            open: AtomicBool::new(open),
        }
    }

    pub fn all(&self) -> u64 {
        self.all.load(Ordering::SeqCst)
    }

    pub fn firsts(&self) -> u64 {
        self.firsts.load(Ordering::SeqCst)
    }

    pub fn open(&self) {
        self.open.store(true, Ordering::SeqCst);
    }

    /// Waits until an execution has come.
    pub fn await_first(&self) {
        for _ in 0..LOOKS {
            if 0 < self.all() {
                return;
            }
            hint::spin_loop();
        }
    }
}

impl Gate for Counting {
    fn pass<R: Wait>(&self, _rt: &R, _task: u32, _root: Root, path: &Path) {
        let _ = self.all.fetch_add(1, Ordering::SeqCst);
        if path.len() == 1 {
            let _ = self.firsts.fetch_add(1, Ordering::SeqCst);
        }
        for _ in 0..LOOKS {
            if self.open.load(Ordering::SeqCst) {
                return;
            }
            hint::spin_loop();
        }
    }
}
