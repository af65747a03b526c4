ghost use Rattle.std.specs.Prelude.{◌≡◌, ◌≤◌, ℕ, ◌+◌, ◌-◌, ◌^◌, ◌<◌, List, [], length, true, min, position, IfSome, IfOk, OnOk, OnErr};
ghost use Rattle.std.proofs.Common.{sym, ◌∙◌};
ghost use Rattle.std.proofs.Math.Nat.{min-le_right};
ghost use Rattle.std.specs.List.{position_or_len};
ghost use Rattle.storm_values.specs.Counts.{raised_by};
ghost use Rattle.storm_stores.specs.CellMaps.{CellMap, InKeyOrder, with_cell};
ghost use Rattle.storm_stores.specs.MemoryStore.{ended, store_of, failing_of};
ghost use Rattle.storm_stores.specs.MemoryMaker.{ChangesPart, HasMade, HoldsFor, IsOther, SameParts, is_slot, made_at, no_parts, store_at};

use crate::calls::FailAt;
use crate::memory_store::MemStore;
use crate::store::{CellStore, StoreMaker};
use std::alloc::Global;
use std::marker::Model;
use std::mem;
use storm_values::{Bytes, Memory};

/// The place of a part, where its store lies before it is made and after it came back.
#[derive(Debug, Drop)]
struct Slot {
    component: u32,
    part: u32,
    made: bool,
    store: MemStore,
}

/// Makes stores in memory. Each part begins with its own cells and failing calls; a part that was
/// never named begins empty. A call takes time in proportion to the number of parts at most.
#[derive(Debug, Drop)]
pub struct MemMaker {
    slots: Vec<Slot>,
    faults: u64,
    alloc: Global,
}

impl Model for MemMaker {
    ghost use Rattle.storm_stores.specs.MemoryMaker.{MakerState};

    ghost Value = { MakerState };

    ghost view = { λ m. record { slots = m.slots.items; faults = m.faults } };
}

/// The number of the place of a part, and the number of places where it has none.
fn find_slot(slots: &[Slot], component: u32, part: u32) -> usize
    ensures place { result ≡ position_or_len (is_slot component part) slots.now }
    ensures within { result ≤ length slots.now }
{
    search_slot(slots, component, part).unwrap_or(slots.len())
}

fn search_slot(slots: &[Slot], component: u32, part: u32) -> Option<usize>
    ensures place { result ≡ position (is_slot component part) slots.now }
    ensures within { IfSome result (λ i. i < length slots.now) }
{
    slots
        .iter()
        .position(|slot| slot.component == component && slot.part == part)
}

/// The number of the place of a part, which is added where there is none.
fn place(alloc: Global, slots: &mut Vec<Slot>, component: u32, part: u32) -> Result<usize, Memory>
    ensures same { SameParts slots.old.items slots.new.items }
    ensures place { IfOk result
        (λ i. i ≡ position_or_len (is_slot component part) slots.new.items) }
    ensures within { IfOk result (λ i. i < length slots.new.items) }
{
    let i = find_slot(slots, component, part);
    if i == slots.len() {
        slots.push(Slot {
            component,
            part,
            made: false,
            store: MemStore::new(alloc),
        })?;
    }
    Ok(i)
}

impl MemMaker {
    /// A maker with no cells, whose stores do not fail.
    pub fn new(alloc: Global) -> Self
        ensures state { result ≡ no_parts }
        ensures held { (c p : ℕ) → ⟦<MemMaker as StoreMaker>⟧.holds result c p [] }
        ensures none_made { (c p : ℕ) → ⟦<MemMaker as StoreMaker>⟧.has_made result c p → ⊥ }
    {
        MemMaker {
            slots: Vec::new(alloc),
            faults: 0,
            alloc,
        }
    }

    /// Gives a key of a part a cell.
    pub fn set(&mut self, component: u32, part: u32, key: Bytes, cell: Bytes) -> Result<(), Memory>
        requires { HasMade self.old component part → ⊥ }
        ensures ok { OnOk result (ChangesPart self.old.slots self.new.slots component part
            (record (store_at self.old.slots component part) {
              cells = with_cell (store_at self.old.slots component part).cells key cell;
            }) (made_at self.old.slots component part)) }
        ensures held { OnOk result ((cells : CellMap) →
            ⟦<MemMaker as StoreMaker>⟧.holds self.old component part cells →
            ⟦<MemMaker as StoreMaker>⟧.holds self.new component part (with_cell cells key cell)) }
        ensures err { OnErr result (SameParts self.old.slots self.new.slots) }
        ensures faults { self.new.faults ≡ self.old.faults }
    {
        let i = place(self.alloc, &mut self.slots, component, part)?;
        let slot = &mut self.slots[i];
        slot.store.set(key, cell)?;
        Ok(())
    }

    /// Lets a call of the store of a part fail.
    pub fn fail(&mut self, component: u32, part: u32, at: FailAt) -> Result<(), Memory>
        requires { HasMade self.old component part → ⊥ }
        ensures ok { OnOk result (ChangesPart self.old.slots self.new.slots component part
            (failing_of at.kind (record { number = at.number; happened = at.happened })
            (store_at self.old.slots component part)) (made_at self.old.slots component part)) }
        ensures err { OnErr result (SameParts self.old.slots self.new.slots) }
        ensures faults { self.new.faults ≡ self.old.faults }
    {
        let i = place(self.alloc, &mut self.slots, component, part)?;
        let slot = &mut self.slots[i];
        slot.store.fail(at)?;
        Ok(())
    }

    /// How often the stores that came back have failed. The count ends at 2^64 - 1.
    pub fn faults(&self) -> u64
        ensures value { result ≡ self.now.faults }
        ensures told { ⟦<MemMaker as StoreMaker>⟧.fault_count self.now ≡ result }
    {
        self.faults
    }
}

impl StoreMaker for MemMaker {
    type C = MemStore;

    ghost holds = { HoldsFor };

    ghost has_made = { HasMade };

    ghost fault_count = { λ m. ended m.faults };

    ghost one_map = { λ m c p a b is_a is_b. is_a.0 ∙ sym is_b.0 };

    ghost count_ends = { λ m. min-le_right m.faults (2 ^ 64 - 1) };

    fn make(&mut self, component: u32, part: u32) -> Result<MemStore, Memory>
        ensures store { IfOk result
            (λ store. store ≡ record (store_at self.old.slots component part) { faults = 0 }) }
        ensures ok { OnOk result
            (ChangesPart self.old.slots self.new.slots component part (store_of []) true) }
        ensures err { OnErr result (SameParts self.old.slots self.new.slots) }
        ensures faults { self.new.faults ≡ self.old.faults }
    {
        let i = place(self.alloc, &mut self.slots, component, part)?;
        let alloc = self.alloc;
        let slot = &mut self.slots[i];
        slot.made = true;
        let mut store = mem::replace(&mut slot.store, MemStore::new(alloc));
        store.forget_faults();
        Ok(store)
    }

    fn give(&mut self, component: u32, part: u32, store: MemStore)
        requires { HasMade self.old component part }
        ensures ok { ChangesPart self.old.slots self.new.slots component part store true }
        ensures sum { self.new.faults ≡ min (self.old.faults + store.faults) (2 ^ 64 - 1) }
        ensures count { (let of_store = ended store.faults in
            ended self.new.faults ≡ raised_by (ended self.old.faults) of_store) }
        ensures never_falls { ended self.old.faults ≤ ended self.new.faults }
        ensures same_count { ended store.faults ≡ 0 →
            ended self.new.faults ≡ ended self.old.faults }
    {
        self.faults = self.faults.saturating_add(store.faults());
        let i = find_slot(&self.slots, component, part);
        let slot = &mut self.slots[i];
        slot.store = store;
    }
}
