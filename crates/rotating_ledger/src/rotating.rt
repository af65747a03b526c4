ghost use Rattle.std.specs.Prelude.{◌≡◌, ◌∷◌, ◌++◌, ◌+◌, ◌≤◌, ◌<◌, ℕ, [], Option, None, Some, length, slice_get, slice_set, IfOk, OnOk, OnErr, IfErr, IsTrue};
ghost use Rattle.std.specs.Option.{option_copied_mut};
ghost use Rattle.rotating_ledger.specs.Held.{AreHeldOnce, AreYoung, Held, held_at, value_of, without, rotated, dropped};
ghost use Rattle.rotating_ledger.specs.Slots.{held_of, place_from, AllFound, HasAt};
ghost use Rattle.rotating_ledger.specs.declared.bucket.Bucket.{Bucket};

use crate::bucket::Bucket;
use crate::dropped::Dropped;
use std::alloc::Global;
use std::marker::Model;
use std::mem;
use storm_values::{Memory, Root};

/// Values of roots in buckets, after Storm's `RotatingMap`. A rotation drops the oldest bucket and
/// adds an empty one, so a value goes at the rotation that has the number of buckets since it was
/// put. A root is found by one look-up in each bucket that is not empty, whatever number of roots
/// is held, and with none where it is the root that was found last.
#[derive(Debug, Drop)]
pub struct Rotating<V> {
    // the oldest first
    buckets: Vec<Bucket<V>>,
    // the bucket and the slot of the root that was found last: where to look first
    last: (usize, usize),
}

impl<V> Model for Rotating<V> {
    ghost use Rattle.std.specs.Prelude.{◌≡◌, ◌≤◌, ℕ, vec_len};
    ghost use Rattle.rotating_ledger.specs.Held.{AreHeldOnce, Rotation, rotation_code};

    ghost Value = { Rotation V };

    ghost coded = { rotation_code V.code };

    ghost use Rattle.rotating_ledger.specs.Slots.{held_of, AllFound};

    ghost view = { λ r. record {
      buckets = vec_len r.buckets;
      held = held_of r.buckets.items;
    } };

    ghost invariant = { λ r.
        (2 ≤ vec_len r.buckets) × (vec_len r.buckets ≤ 16) × AllFound r.buckets.items
        × AreHeldOnce (held_of r.buckets.items) };
}

// The bucket that has a root, and its slot there. It is looked for at one place first.
fn place_of<V: Drop>(
    buckets: &[Bucket<V>],
    first: (usize, usize),
    root: Root,
) -> Option<(usize, usize)>
    requires found { AllFound buckets.now }
    requires once { AreHeldOnce (held_of buckets.now) }
    ensures { result ≡ place_from 0 root buckets.now }
{
    if is_at(buckets, first, root) {
        return Some(first);
    }
    find_place(buckets, root)
}

// Whether a root lies in this bucket and slot.
fn is_at<V: Drop>(buckets: &[Bucket<V>], place: (usize, usize), root: Root) -> bool
    ensures { IsTrue result → (bucket : Bucket V)
        × (slice_get buckets.now place.0 ≡ Some bucket) × HasAt bucket place.1 root }
{
    match buckets.get(place.0) {
        Some(bucket) => bucket.has_at(place.1, root),
        None => false,
    }
}

// The first bucket that has a root, and its slot there.
fn find_place<V: Drop>(buckets: &[Bucket<V>], root: Root) -> Option<(usize, usize)>
    ensures { result ≡ place_from 0 root buckets.now }
{
    for (i, bucket) in buckets.iter().enumerate() {
        if let Some(slot) = bucket.slot_of(root) {
            return Some((i, slot));
        }
    }
    None
}

impl<V: Drop> Rotating<V> {
    ghost use Rattle.std.specs.Borrow.{sem};
    ghost use Rattle.rotating_ledger.specs.Lending.{lends_value};

    /// No values in so many buckets.
    pub fn new(alloc: Global, buckets: u32) -> Result<Self, Memory>
        requires least { 2 ≤ buckets }
        requires most { buckets ≤ 16 }
        ensures { IfOk result (λ made. made ≡ record { buckets = buckets; held = [] }) }
    {
        let mut made = Vec::with_capacity(alloc, 16)?;
        for _count in 0..buckets {
            made.push(Bucket::new(alloc))?;
        }
        Ok(Rotating {
            buckets: made,
            last: (0, 0),
        })
    }

    /// Puts a value into the newest bucket. It comes back for want of memory alone.
    pub fn put(&mut self, root: Root, value: V) -> Result<(), V>
        requires { value_of root self.old.held ≡ None }
        ensures ok { OnOk result
            (self.new ≡ record self.old { held = self.old.held ++ held_at 0 root value ∷ [] }) }
        ensures err { OnErr result (self.new ≡ self.old) }
        ensures value_returned { IfErr result (λ v. v ≡ value) }
    {
        let last = self.buckets.len() - 1;
        let newest = &mut self.buckets[last];
        newest.put(root, value)
    }

    /// A root's value.
    pub fn get(&mut self, root: Root) -> Option<&mut V>
        ensures* lends { sem 𝓛 (lends_value V.row self.entry root result) }
        ensures value { option_copied_mut result ≡ value_of root self.old.held }
    {
        match place_of(&self.buckets, self.last, root) {
            Some((place, slot)) => {
                self.last = (place, slot);
                let bucket = &mut self.buckets[place];
                Some(bucket.value_mut(slot))
            }
            None => None,
        }
    }

    /// Takes a root's value out.
    pub fn take(&mut self, root: Root) -> Option<V>
        ensures value { result ≡ value_of root self.old.held }
        ensures others { self.new ≡ record self.old { held = without root self.old.held } }
        ensures gone { value_of root self.new.held ≡ None }
    {
        match place_of(&self.buckets, self.last, root) {
            Some((place, slot)) => {
                let bucket = &mut self.buckets[place];
                Some(bucket.take_at(root, slot))
            }
            None => None,
        }
    }

    /// Takes away the values of the oldest bucket, in the order in which they were put. It takes no
    /// memory and no time for what stays.
    pub fn rotate(&mut self) -> Dropped<V>
        ensures dropped { result ≡ dropped self.old.buckets self.old.held }
        ensures kept { self.new
            ≡ record self.old { held = rotated self.old.buckets self.old.held } }
    {
        let empty = Bucket::new(*self.buckets.allocator());
        let oldest = mem::replace(&mut self.buckets[0], empty);
        self.buckets.rotate_left(1);
        Dropped::new(oldest.slots)
    }

    /// No root is held twice, and none for as many rotations as there are buckets.
    pub fn held_are_young(&self)
        ensures once { AreHeldOnce self.now.held }
        ensures young { AreYoung self.now.buckets self.now.held }
    {
        let _ = &self.buckets;
    }
}
