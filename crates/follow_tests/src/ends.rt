// A follower that fails at each commit in turn, and one that never fails.
use crate::checks::{check_later, check_stop, check_whole};
use crate::scenes::{LAST, OPAQUE, PARTITIONED, Scene, TRANSACTIONAL};
use crate::ways::{WAYS, Way};
use std::alloc::Global;
use std::sync::Wait;
use std::thread::Threads;
use test_kit::Mismatch;

// The follower fails at each commit, having kept it or not.
fn fail_at_each<R: Threads + Wait + Sync>(
    rt: &R,
    alloc: Global,
    scene: Scene,
    way: Way,
) -> Result<(), Mismatch> {
    for at in 1..=LAST {
        check_stop(rt, alloc, scene, way, at, false)?;
        check_stop(rt, alloc, scene, way, at, true)?;
    }
    Ok(())
}

fn fail_each_way<R: Threads + Wait + Sync>(
    rt: &R,
    alloc: Global,
    scene: Scene,
) -> Result<(), Mismatch> {
    for way in WAYS {
        fail_at_each(rt, alloc, scene, way)?;
    }
    Ok(())
}

#[test]
fn a_follower_fails_over_a_transactional_state(rt: HostRuntime) -> Result<(), Mismatch> {
    fail_each_way(&rt, rt.alloc(), TRANSACTIONAL)
}

#[test]
fn a_follower_fails_over_an_opaque_state(rt: HostRuntime) -> Result<(), Mismatch> {
    fail_each_way(&rt, rt.alloc(), OPAQUE)
}

#[test]
fn a_follower_fails_over_a_spout_with_partitions(rt: HostRuntime) -> Result<(), Mismatch> {
    fail_each_way(&rt, rt.alloc(), PARTITIONED)
}

#[test]
fn a_follower_is_told_each_commit(rt: HostRuntime) -> Result<(), Mismatch> {
    for scene in [TRANSACTIONAL, OPAQUE, PARTITIONED] {
        for way in WAYS {
            check_whole(&rt, rt.alloc(), scene, way)?;
        }
    }
    Ok(())
}

#[test]
fn a_follower_of_a_later_run_is_told_the_rest(rt: HostRuntime) -> Result<(), Mismatch> {
    for scene in [TRANSACTIONAL, OPAQUE, PARTITIONED] {
        for way in WAYS {
            check_later(&rt, rt.alloc(), scene, way)?;
        }
    }
    Ok(())
}
