ghost use Rattle.std.specs.Prelude.{◌≡◌, ◌==◌, ◌+◌, ◌≤◌, ◌++◌, None, filter, length, not, option_copied, vec_len, vec_capacity};
ghost use Rattle.std.specs.List.{find, position};
ghost use Rattle.replay_pending.specs.InFlight.{AreDistinct, ended, entry_of, has_txid, is_above, is_late, is_of_root, is_settled_after, is_timed_of, settled_after, timed_of};
ghost use Rattle.replay_pending.specs.declared.entry.Entry.{Entry};

use crate::entry::Entry;
use storm_values::Root;

fn is_of_root<L: Drop>(root: Root, entry: &Entry<L>) -> bool
    ensures { result ≡ is_of_root root entry.now }
{
    root.txid == entry.root.txid && root.attempt == entry.root.attempt
}

fn is_timed_of<L: Drop>(root: Root, entry: &Entry<L>) -> bool
    ensures { result ≡ is_timed_of root entry.now }
{
    is_of_root(root, entry) && entry.settled.is_none()
}

// Whether a transaction is the one after another.
fn is_after(before: u64, txid: u64) -> bool
    ensures { result ≡ (txid == before + 1) }
{
    txid > before && txid - before == 1
}

fn is_settled_after<L: Drop>(before: u64, entry: &Entry<L>) -> bool
    ensures { result ≡ is_settled_after before entry.now }
{
    is_after(before, entry.root.txid) && entry.settled.is_some()
}

// Whether an attempt's transaction is above this one.
fn is_above<L: Drop>(txid: u64, entry: &Entry<L>) -> bool
    ensures { result ≡ is_above txid entry.now }
{
    txid < entry.root.txid
}

// Whether a timed attempt ends at a tick.
fn is_late<L: Drop>(buckets: u32, tick: u64, entry: &Entry<L>) -> bool
    ensures { result ≡ is_late buckets tick entry.now }
{
    entry.settled.is_none() && tick.checked_sub(u64::from(buckets)) == Some(entry.start)
}

// The place of the attempt of a root.
fn place_of<L: Drop>(entries: &[Entry<L>], root: Root) -> Option<usize>
    ensures { result ≡ position (is_of_root root) entries.now }
{
    entries.iter().position(|entry| is_of_root(root, entry))
}

/// The place of the timed attempt of a root.
pub fn timed_place<L: Drop>(entries: &[Entry<L>], root: Root) -> Option<usize>
    ensures { result ≡ position (is_timed_of root) entries.now }
{
    entries.iter().position(|entry| is_timed_of(root, entry))
}

/// The place of the first attempt whose transaction is above this one.
pub fn place_above<L: Drop>(entries: &[Entry<L>], txid: u64) -> Option<usize>
    ensures { result ≡ position (is_above txid) entries.now }
{
    entries.iter().position(|entry| is_above(txid, entry))
}

/// The timed attempt of a root.
pub fn timed<L: Drop>(entries: &[Entry<L>], root: Root) -> Option<&Entry<L>>
    ensures { option_copied result ≡ timed_of root entries.now }
{
    entries.iter().find(|entry| is_timed_of(root, entry))
}

/// The settled attempt of the transaction after this one.
pub fn settled_after<L: Drop>(entries: &[Entry<L>], before: u64) -> Option<&Entry<L>>
    ensures { option_copied result ≡ settled_after before entries.now }
{
    entries.iter().find(|entry| is_settled_after(before, entry))
}

/// Whether an attempt of a transaction is pending.
pub fn has_txid<L: Drop>(entries: &[Entry<L>], txid: u64) -> bool
    ensures { result ≡ has_txid txid entries.now }
{
    entries.iter().any(|entry| txid == entry.root.txid)
}

/// How many attempts end at a tick.
pub fn late_count<L: Drop>(entries: &[Entry<L>], buckets: u32, tick: u64) -> usize
    ensures { result ≡ length (filter (is_late buckets tick) entries.now) }
{
    entries
        .iter()
        .filter(|entry| is_late(buckets, tick, entry))
        .count()
}

// The place of the first attempt that ends at a tick.
fn late_place<L: Drop>(entries: &[Entry<L>], buckets: u32, tick: u64) -> Option<usize>
    ensures { result ≡ position (is_late buckets tick) entries.now }
{
    entries
        .iter()
        .position(|entry| is_late(buckets, tick, entry))
}

/// Moves the attempt of a root out.
pub fn take<L: Drop>(entries: &mut Vec<Entry<L>>, root: Root) -> Option<Entry<L>>
    requires { AreDistinct entries.old.items }
    ensures entry { result ≡ entry_of root entries.old.items }
    ensures left { entries.new.items ≡ ended root entries.old.items }
    ensures same { result ≡ None → entries.new.items ≡ entries.old.items }
{
    match place_of(entries, root) {
        Some(place) => Some(entries.remove(place)),
        None => None,
    }
}

/// Moves the attempts that end at a tick out, in their order, to where there is room for them.
pub fn move_late<L: Drop>(
    entries: &mut Vec<Entry<L>>,
    told: &mut Vec<Entry<L>>,
    buckets: u32,
    tick: u64,
)
    requires room { vec_len told.old + length (filter (is_late buckets tick) entries.old.items)
        ≤ vec_capacity told.old }
    ensures told { told.new.items
        ≡ told.old.items ++ filter (is_late buckets tick) entries.old.items }
    ensures kept { entries.new.items
        ≡ filter (λ (e : Entry L). not (is_late buckets tick e)) entries.old.items }
{
    while let Some(place) = late_place(entries, buckets, tick) {
        told.push_reserved(entries.remove(place));
    }
}
