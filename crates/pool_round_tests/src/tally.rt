// What comes into the boxes of the ackers, counted.
use box_rows::Mail;
use box_test_kit::{ACKERS_AT, LEVELS};
use event_worlds::storm_values::Memory;
use event_worlds::tree_model::{AckMsg, Done, Parcel};
use std::alloc::Global;

/// How often each tuple was told as executed, and where the ids of each task stood in its last note
/// to each acker.
#[derive(Drop)]
pub struct Tally {
    // by the number of the first tuple and the level
    counts: Vec<u32>,
    // by the acker and the task
    stands: Vec<u64>,
    /// How many messages came, and how many notes in them.
    pub mails: u32,
    pub notes: u32,
    /// How many were at a wrong place.
    pub wrong: u32,
}

impl Tally {
    /// Of so many first tuples.
    pub fn new(alloc: Global, count: u32) -> Result<Self, Memory> {
        let places = count.saturating_mul(LEVELS) as usize;
        Ok(Tally {
            counts: vec![in alloc; 0u32; places]?,
            stands: vec![in alloc; 0u64; 32]?,
            mails: 0,
            notes: 0,
            wrong: 0,
        })
    }

    fn count_wrong(&mut self, wrong: bool) {
        if wrong {
            self.wrong = self.wrong.wrapping_add(1);
        }
    }

    // The tuple of a number at a level was executed once more.
    fn count(&mut self, number: u64, level: usize) {
        let place = (number as usize)
            .wrapping_mul(LEVELS as usize)
            .wrapping_add(level);
        match self.counts.get_mut(place) {
            Some(count) => *count = count.wrapping_add(1),
            None => self.wrong = self.wrong.wrapping_add(1),
        }
    }

    // The ids of a task stand here. They stood below before, where they are told at all.
    fn stand(&mut self, acker: usize, source: u32, first: u64) {
        let place = acker.wrapping_mul(16).wrapping_add(source as usize);
        match self.stands.get_mut(place) {
            Some(stand) => {
                let rises = *stand < first;
                *stand = first;
                self.count_wrong(!rises);
            }
            None => self.wrong = self.wrong.wrapping_add(1),
        }
    }

    fn note_done(&mut self, acker: usize, done: &Done) {
        let level = done.consumed.path.len().wrapping_sub(1);
        self.count(done.root.txid, level);
        self.count_wrong(done.root.txid % 2 != acker as u64);
        self.count_wrong(
            done.consumed
                .path
                .as_slice()
                .iter()
                .any(|number| *number != 0),
        );
        if !done.produced.is_empty() {
            self.stand(acker, done.draw.source, done.draw.first);
        }
    }

    fn note(&mut self, at: usize, parcel: &Parcel) {
        self.notes = self.notes.wrapping_add(1);
        match parcel {
            Parcel::ToAcker(acker, AckMsg::Done(done)) => {
                let named = *acker as usize;
                self.count_wrong(named.wrapping_add(ACKERS_AT) != at);
                self.note_done(named, done);
            }
            _ => self.count_wrong(true),
        }
    }

    /// A message came out of a box.
    pub fn add(&mut self, at: usize, mail: &Mail) {
        self.mails = self.mails.wrapping_add(1);
        match mail {
            Mail::Run(parcels) => {
                for parcel in parcels.as_slice() {
                    self.note(at, parcel);
                }
            }
            Mail::Verdict(_) => self.count_wrong(true),
        }
    }

    /// Whether each tuple came once, and all that came was right.
    pub fn is_all_once(&self) -> bool {
        self.wrong == 0 && self.counts.as_slice().iter().all(|count| *count == 1)
    }
}
