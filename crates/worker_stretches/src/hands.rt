//! Items dealt out to hands one after another, and gathered again by their numbers.
ghost use Rattle.std.specs.Prelude.{◌≡◌, ◌<◌, ◌+◌, ◌%◌, ℕ, [], length, map, IfOk, OnOk};
ghost use Rattle.std.specs.List.{range_with_len};
ghost use Rattle.std.specs.List.Sorted.{IsPermutation};
ghost use Rattle.worker_stretches.specs.Hands.{AreInTurn, GivesAt, items_in};

use event_worlds::storm_values::Memory;
use std::alloc::Global;
use std::collections::VecDeque;

/// An item with a number.
pub(crate) trait Numbered {
    ghost number_of: { Self → ℕ };

    fn number(&self) -> u32
        ensures { result ≡ number_of self.now };
}

// Puts an item into the hand at a place.
fn give<T: Drop>(hands: &mut Vec<Vec<T>>, at: usize, item: T) -> Result<(), Memory>
    requires { at < length hands.old.items }
    ensures { OnOk result (GivesAt at item hands.old.items hands.new.items) }
{
    hands[at].push(item)?;
    Ok(())
}

/// So many empty hands.
fn empty_hands<T: Drop>(alloc: Global, count: usize) -> Result<Vec<Vec<T>>, Memory>
    ensures many { IfOk result (λ hands. length hands.items ≡ count) }
    ensures empty { IfOk result (λ hands. items_in hands.items ≡ []) }
{
    let mut hands = Vec::with_capacity(alloc, count)?;
    for _next in 0..count {
        hands.push_reserved(Vec::new(alloc));
    }
    Ok(hands)
}

// The place after a place, and after the last one the first.
fn next_to(at: usize, count: usize) -> usize
    requires { at < count }
    ensures { result ≡ (at + 1) % count }
{
    (at + 1) % count
}

/// The items are dealt out in turn, the first to the hand at this place.
pub(crate) fn deal<T: Drop>(
    alloc: Global,
    items: Vec<T>,
    first: usize,
    count: usize,
) -> Result<Vec<Vec<T>>, Memory>
    requires { first < count }
    ensures many { IfOk result (λ hands. length hands.items ≡ count) }
    ensures dealt { IfOk result (λ hands. IsPermutation items.items (items_in hands.items)) }
    ensures in_turn { IfOk result (λ hands. AreInTurn first count items.items hands.items) }
{
    let mut hands = empty_hands(alloc, count)?;
    let mut at = first;
    let mut rest = VecDeque::from_vec(items);
    while let Some(item) = rest.pop_front() {
        give(&mut hands, at, item)?;
        at = next_to(at, count);
    }
    Ok(hands)
}

// All items of all hands.
fn all_of<T: Drop>(alloc: Global, hands: Vec<Vec<T>>) -> Result<Vec<T>, Memory>
    ensures { IfOk result (λ all. all.items ≡ items_in hands.items) }
{
    let mut all = Vec::new(alloc);
    let mut rest = VecDeque::from_vec(hands);
    while let Some(hand) = rest.pop_front() {
        let mut given = hand;
        all.append(&mut given)?;
    }
    Ok(all)
}

// Puts items into the order of their numbers.
fn sort<T: Numbered>(all: &mut Vec<T>)
    requires { IsPermutation (map T.number_of all.old.items)
        (range_with_len 0 (length all.old.items)) }
    ensures same { IsPermutation all.old.items all.new.items }
    ensures numbered { map T.number_of all.new.items ≡ range_with_len 0 (length all.new.items) }
{
    all.sort_unstable_by_key(|item| item.number());
}

/// The items of all hands, whose numbers are those below their count, in the order of their
/// numbers.
pub(crate) fn gather<T: Numbered + Drop>(
    alloc: Global,
    hands: Vec<Vec<T>>,
) -> Result<Vec<T>, Memory>
    requires { IsPermutation (map T.number_of (items_in hands.items))
        (range_with_len 0 (length (items_in hands.items))) }
    ensures same { IfOk result (λ all. IsPermutation (items_in hands.items) all.items) }
    ensures numbered { IfOk result (λ all.
        map T.number_of all.items ≡ range_with_len 0 (length all.items)) }
{
    let mut all = all_of(alloc, hands)?;
    sort(&mut all);
    Ok(all)
}
