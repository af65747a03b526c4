ghost use Rattle.std.specs.Prelude.{◌≡◌, ◌<◌, ◌+◌, ◌^◌, ◌++◌, ◌∷◌, [], ℕ, List, length, Option, None, Some, IfOk, OnOk, IfSome, IfNone, IsSome};
ghost use Rattle.std.specs.List.{AllByRecursion};
ghost use Rattle.tree_model.specs.declared.write.Write.{Write};
ghost use Rattle.tree_model.specs.Packs.{write_in};
ghost use Rattle.state_parts.specs.Dealt.{AreDealt, IsGrouped};
ghost use Rattle.state_parts.specs.PartPlans.{AreIndexed, IsFound, IsOneOf, place_by, plans_of};

use crate::parts::StatePart;
use state_cells::GroupedWrites;
use std::alloc::Global;
use storm_stores::CellStore;
use tree_model::storm_values::Memory;
use tree_model::{LentWrite, PackedWrites};

/// The place of a part by the places of the components' first parts.
fn place_of(firsts: &[usize], component: u32, part: u32) -> Option<usize>
    ensures some { IfSome result (λ i. place_by firsts.now component part ≡ Some i) }
    ensures none { IfNone result
        ((i : ℕ) → i < 2 ^ 64 → place_by firsts.now component part ≡ Some i → ⊥) }
{
    let first = *firsts.get(component as usize)?;
    first.checked_add(part as usize)
}

/// The place of a part, if there is one of these numbers.
fn find_part<C: CellStore>(
    firsts: &[usize],
    parts: &[StatePart<C>],
    component: u32,
    part: u32,
) -> Option<usize>
    requires { AreIndexed firsts.now 0 (plans_of parts.now) }
    ensures found { IfSome result (IsFound (plans_of parts.now) component part) }
    ensures none { IfNone result (IsOneOf (plans_of parts.now) component part → ⊥) }
{
    let count = parts.len();
    let place = place_of(firsts, component, part)?;
    if place >= count {
        return None;
    }
    let at = &parts[place];
    if at.component != component {
        return None;
    }
    if at.part != part {
        return None;
    }
    Some(place)
}

/// Adds a write to those of its part. A write for no part is left out.
fn deal<'w, C: CellStore>(
    firsts: &[usize],
    parts: &[StatePart<C>],
    dealt: &mut Vec<GroupedWrites<'w>>,
    write: LentWrite<'w>,
) -> Result<(), Memory>
    requires { AreIndexed firsts.now 0 (plans_of parts.now) }
    ensures { OnOk result
        ((before : List Write) → AreDealt before parts.now dealt.old.items
        → AreDealt (before ++ write_in write.entry ∷ []) parts.now dealt.new.items) }
{
    match find_part(firsts, parts, write.state, write.part) {
        Some(place) if place < dealt.len() => dealt[place].add(write.key, write.amount),
        _ => Ok(()),
    }
}

/// No writes, for so many parts, with room for so many keys of each.
fn no_writes<'w>(alloc: Global, parts: usize, keys: usize) -> Result<Vec<GroupedWrites<'w>>, Memory>
    ensures long { IfOk result (λ dealt. length dealt.items ≡ parts) }
    ensures none { IfOk result (λ dealt. AllByRecursion (IsGrouped []) dealt.items) }
{
    let mut dealt = Vec::with_capacity(alloc, parts)?;
    for _ in 0..parts {
        dealt.push(GroupedWrites::with_capacity(alloc, keys)?)?;
    }
    Ok(dealt)
}

/// The writes of a batch by part, and of each part by key. One pass over the writes, which keep
/// their keys.
pub(crate) fn split<'w, C: CellStore>(
    alloc: Global,
    firsts: &[usize],
    parts: &[StatePart<C>],
    writes: &'w PackedWrites,
) -> Result<Vec<GroupedWrites<'w>>, Memory>
    requires { AreIndexed firsts.now 0 (plans_of parts.now) }
    ensures { IfOk result (λ dealt. AreDealt writes.now parts.now dealt.items) }
{
    let keys = writes.len() / parts.len().max(1);
    let mut dealt = no_writes(alloc, parts.len(), keys)?;
    for at in 0..writes.len() {
        deal(firsts, parts, &mut dealt, writes.get(at))?;
    }
    Ok(dealt)
}
