// Parts whose cells of format 1 are brought to format 2.
ghost use Rattle.std.specs.Prelude.{◌≡◌, ℕ};
ghost use Rattle.storm_stores.specs.MemoryMaker.{HasMade};
ghost use Rattle.state_parts.specs.PartPlans.{plans_of};

use crate::scene::{Trouble, bytes, has_tables, plan, refuse};
use state_cells::PartFault;
use state_parts::Parts;
use std::alloc::Global;
use storm_stores::{MemMaker, MemStore};
use tree_model::storm_values::Memory;
use tree_model::topology_plan::Plan;

const CAT: &str = "[\"cat\"]";

const DOG: &str = "[\"dog\"]";

const THE: &str = "[\"the\"]";

// State, part, key, flags and value of cells of format 1, all of the first transaction. Those of
// the opaque state have the flag 4.
const OLD_CELLS: [(u32, u32, &str, u8, u8); 5] = [
    (0, 0, THE, 1, 2),
    (0, 1, CAT, 1, 1),
    (0, 1, DOG, 1, 7),
    (1, 0, THE, 5, 9),
    (1, 1, CAT, 5, 3),
];

fn old_cell(flags: u8, value: u8) -> [u8; 42] {
    let mut cell = [0; 42];
    cell[0] = 1;
    cell[1] = flags;
    cell[9] = 1;
    cell[25] = value;
    cell
}

// Gives a part a cell, before any store is made.
pub fn set_cell(
    alloc: Global,
    stores: &mut MemMaker,
    component: u32,
    part: u32,
    key: &str,
    cell: &[u8],
) -> Result<(), Memory>
    requires { (c p : ℕ) → HasMade stores.old c p → ⊥ }
    ensures { (c p : ℕ) → HasMade stores.new c p → ⊥ }
{
    let key = bytes(alloc, key.as_bytes())?;
    let cell = bytes(alloc, cell)?;
    stores.set(component, part, key, cell)
}

fn set_old_cells(alloc: Global, stores: &mut MemMaker) -> Result<(), Memory>
    requires { (c p : ℕ) → HasMade stores.old c p → ⊥ }
    ensures { (c p : ℕ) → HasMade stores.new c p → ⊥ }
{
    for (component, part, key, flags, value) in OLD_CELLS {
        set_cell(alloc, stores, component, part, key, &old_cell(flags, value))?;
    }
    Ok(())
}

#[derive(Clone, Copy)]
enum Answer {
    Migrated(u64),
    Refused,
    Bad(&'static str),
}

fn has_answer(parts: &mut Parts<MemStore>, answer: Answer) -> bool
    ensures { plans_of parts.new ≡ plans_of parts.old }
{
    match (parts.migrate(), answer) {
        (Ok(count), Answer::Migrated(wanted)) => count == wanted,
        (Err(PartFault::Store), Answer::Refused) => true,
        (Err(PartFault::BadCell(found)), Answer::Bad(key)) => found.as_slice() == key.as_bytes(),
        _ => false,
    }
}

fn has_answers(parts: &mut Parts<MemStore>, answers: &[Answer]) -> bool {
    for answer in answers {
        if !has_answer(parts, *answer) {
            return false;
        }
    }
    true
}

fn has_old_tables(parts: &mut Parts<MemStore>, plan: &Plan) -> Result<bool, PartFault> {
    has_tables(
        parts,
        plan,
        &[(CAT, 1), (DOG, 7), (THE, 2)],
        &[(CAT, 3), (THE, 9)],
    )
}

fn check(
    alloc: Global,
    plan: &Plan,
    stores: &mut MemMaker,
    answers: &[Answer],
) -> Result<(), Trouble> {
    let mut parts = Parts::make(alloc, plan, stores)?;
    if !has_answers(&mut parts, answers) {
        return Err(Trouble::Outcome);
    }
    if has_old_tables(&mut parts, plan)? {
        Ok(())
    } else {
        Err(Trouble::Outcome)
    }
}

// The cells of all parts are counted together, and the tables stay.
#[test]
fn all_parts_are_brought(rt: HostRuntime) -> Result<(), Trouble> {
    let alloc = rt.alloc();
    let mut stores = MemMaker::new(alloc);
    set_old_cells(alloc, &mut stores)?;
    let answers = [Answer::Migrated(5), Answer::Migrated(0)];
    check(alloc, &plan(alloc)?, &mut stores, &answers)
}

// The second part's store refuses its first put: the first part's cell is done, and the parts
// behind it are not begun.
#[test]
fn a_refused_part_ends_the_call(rt: HostRuntime) -> Result<(), Trouble> {
    let alloc = rt.alloc();
    let mut stores = MemMaker::new(alloc);
    set_old_cells(alloc, &mut stores)?;
    refuse(&mut stores, 0, 1)?;
    let answers = [Answer::Refused, Answer::Migrated(4), Answer::Migrated(0)];
    check(alloc, &plan(alloc)?, &mut stores, &answers)
}

// Of two parts that would be refused the first ends the call, so the later one's store does not
// fail before the second.
#[test]
fn a_later_part_is_not_begun(rt: HostRuntime) -> Result<(), Trouble> {
    let alloc = rt.alloc();
    let mut stores = MemMaker::new(alloc);
    set_old_cells(alloc, &mut stores)?;
    refuse(&mut stores, 0, 0)?;
    refuse(&mut stores, 1, 1)?;
    let answers = [Answer::Refused, Answer::Refused, Answer::Migrated(1)];
    check(alloc, &plan(alloc)?, &mut stores, &answers)
}

// A bad cell behind cells of format 1.
#[test]
fn a_bad_cell_ends_the_call(rt: HostRuntime) -> Result<(), Trouble> {
    let alloc = rt.alloc();
    let mut stores = MemMaker::new(alloc);
    set_old_cells(alloc, &mut stores)?;
    set_cell(alloc, &mut stores, 1, 0, CAT, &[0])?;
    let mut parts = Parts::make(alloc, &plan(alloc)?, &mut stores)?;
    if has_answers(&mut parts, &[Answer::Bad(CAT), Answer::Bad(CAT)]) {
        Ok(())
    } else {
        Err(Trouble::Outcome)
    }
}
