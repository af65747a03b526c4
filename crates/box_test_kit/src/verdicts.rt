// Verdicts, counted.
use box_rows::Mail;
use event_worlds::acker_core::Verdict;
use event_worlds::storm_values::Memory;
use std::alloc::Global;

/// How often each root was told as complete.
#[derive(Drop)]
pub struct Verdicts {
    counts: Vec<u32>,
    // how many notes the list of each has
    notes: usize,
    told: u32,
    wrong: u32,
}

impl Verdicts {
    /// Of so many roots, with so many notes each.
    pub fn new(alloc: Global, count: u32, notes: usize) -> Result<Self, Memory> {
        Ok(Verdicts {
            counts: vec![in alloc; 0u32; count as usize]?,
            notes,
            told: 0,
            wrong: 0,
        })
    }

    fn count_wrong(&mut self, wrong: bool) {
        if wrong {
            self.wrong = self.wrong.wrapping_add(1);
        }
    }

    // A root was told as complete once more.
    fn count(&mut self, number: u64) {
        match self.counts.get_mut(number as usize) {
            Some(count) => *count = count.wrapping_add(1),
            None => self.wrong = self.wrong.wrapping_add(1),
        }
    }

    /// A message came to the coordinator.
    pub fn add(&mut self, mail: &Mail) {
        self.told = self.told.wrapping_add(1);
        match mail {
            Mail::Verdict(Verdict::Complete { root, list }) => {
                self.count(root.txid);
                self.count_wrong(list.len() != self.notes);
            }
            _ => self.count_wrong(true),
        }
    }

    /// Whether as many verdicts came as there are roots.
    pub fn are_all(&self) -> bool {
        self.counts.len() <= self.told as usize
    }

    /// Whether each root was told once, and nothing else.
    pub fn are_right(&self) -> bool {
        self.wrong == 0 && self.counts.as_slice().iter().all(|count| *count == 1)
    }
}
