// Commits of a batch to the parts of two states, and their tables.
use crate::scene::{
    FIRST_PUT, Trouble, bytes, commit, commit_and_give_back, has_tables, plan, refuse,
};
use state_parts::{CommitFault, CommitOutcome, Parts};
use std::alloc::Global;
use storm_stores::MemMaker;
use tree_model::storm_values::Memory;

const CAT: &str = "[\"cat\"]";

const THE: &str = "[\"the\"]";

// The batch once: two states of both kinds, each with two parts.
#[test]
fn two_states_are_committed(rt: HostRuntime) -> Result<(), Trouble> {
    let alloc = rt.alloc();
    let plan = plan(alloc)?;
    let mut parts = Parts::make(alloc, &plan, &mut MemMaker::new(alloc))?;
    assert!(rt; commit(alloc, &mut parts, 1)? == CommitOutcome::Done);
    assert!(rt;
        has_tables(
            &mut parts,
            &plan,
            &[(CAT, 1), (THE, 2)],
            &[(CAT, -2), (THE, 9)]
        )?
    );
    Ok(())
}

// What is told of a batch by the parts over these stores.
fn failed_first(alloc: Global, stores: &mut MemMaker) -> Result<CommitOutcome, Trouble> {
    let mut parts = Parts::make(alloc, &plan(alloc)?, stores)?;
    commit(alloc, &mut parts, 1)
}

fn failing(alloc: Global, component: u32, part: u32) -> Result<MemMaker, Memory> {
    let mut stores = MemMaker::new(alloc);
    stores.fail(component, part, FIRST_PUT)?;
    Ok(stores)
}

// The store of the first part refuses; all other parts have the batch, and the next attempt
// makes it whole.
#[test]
fn every_part_is_tried(rt: HostRuntime) -> Result<(), Trouble> {
    let alloc = rt.alloc();
    let plan = plan(alloc)?;
    let mut parts = Parts::make(alloc, &plan, &mut failing(alloc, 0, 0)?)?;
    let failed = CommitOutcome::Failed {
        component: 0,
        part: 0,
        before: 0,
        after: 1,
    };
    assert!(rt; commit(alloc, &mut parts, 1)? == failed);
    assert!(rt; has_tables(&mut parts, &plan, &[(CAT, 1)], &[(CAT, -2), (THE, 9)])?);
    assert!(rt; commit(alloc, &mut parts, 1)? == CommitOutcome::Done);
    assert!(rt;
        has_tables(
            &mut parts,
            &plan,
            &[(CAT, 1), (THE, 2)],
            &[(CAT, -2), (THE, 9)]
        )?
    );
    Ok(())
}

// Of two stores that refuse the first part's is told, with its own counts.
#[test]
fn the_first_failed_part_is_told(rt: HostRuntime) -> Result<(), Trouble> {
    let alloc = rt.alloc();
    let mut stores = MemMaker::new(alloc);
    refuse(&mut stores, 1, 0)?;
    refuse(&mut stores, 0, 1)?;
    let failed = CommitOutcome::Failed {
        component: 0,
        part: 1,
        before: 0,
        after: 1,
    };
    assert!(rt; failed_first(alloc, &mut stores)? == failed);
    Ok(())
}

fn is_bad(answer: Result<CommitOutcome, Trouble>, key: &str) -> bool {
    match answer {
        Err(Trouble::Commit(CommitFault::BadCell(bytes))) => bytes.as_slice() == key.as_bytes(),
        _ => false,
    }
}

// A bad cell behind a store that refuses.
#[test]
fn a_bad_cell_goes_before_a_failed_store(rt: HostRuntime) -> Result<(), Trouble> {
    let alloc = rt.alloc();
    let mut stores = MemMaker::new(alloc);
    stores.set(1, 1, bytes(alloc, CAT.as_bytes())?, bytes(alloc, &[0])?)?;
    stores.fail(0, 0, FIRST_PUT)?;
    assert!(rt; is_bad(failed_first(alloc, &mut stores), CAT));
    Ok(())
}

// The parts go on where they were, after their stores went back to the maker.
#[test]
fn stores_that_came_back_are_made_again(rt: HostRuntime) -> Result<(), Trouble> {
    let alloc = rt.alloc();
    let plan = plan(alloc)?;
    let mut stores = MemMaker::new(alloc);
    commit_and_give_back(alloc, &plan, &mut stores)?;
    let mut parts = Parts::make(alloc, &plan, &mut stores)?;
    assert!(rt; commit(alloc, &mut parts, 2)? == CommitOutcome::Done);
    assert!(rt;
        has_tables(
            &mut parts,
            &plan,
            &[(CAT, 2), (THE, 4)],
            &[(CAT, -4), (THE, 18)]
        )?
    );
    Ok(())
}

// A store that refused comes back with its fault and without the cell.
#[test]
fn a_store_comes_back_with_its_fault(rt: HostRuntime) -> Result<(), Trouble> {
    let alloc = rt.alloc();
    let plan = plan(alloc)?;
    let mut stores = failing(alloc, 0, 0)?;
    commit_and_give_back(alloc, &plan, &mut stores)?;
    assert!(rt; stores.faults() == 1);
    let mut parts = Parts::make(alloc, &plan, &mut stores)?;
    assert!(rt; has_tables(&mut parts, &plan, &[(CAT, 1)], &[(CAT, -2), (THE, 9)])?);
    Ok(())
}
