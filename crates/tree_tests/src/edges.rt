// Edges are copied, and stand in order.
use std::alloc::Global;
use std::cmp::Ordering;
use std::test::Fail;
use tree_model::Edge;
use tree_model::storm_values::{Duplicate, Memory, Path};

#[test]
fn a_copy_has_the_path_and_the_id(rt: HostRuntime) -> Result<(), Fail> {
    let made = edge(rt.alloc(), &[2, 0], 7)?.copy()?;
    assert!(rt; made.path.as_slice() == [2, 0].as_slice());
    assert_eq!(rt; made.id, 7);
    Ok(())
}

#[test]
fn edges_stand_by_path_and_then_by_id(rt: HostRuntime) -> Result<(), Fail> {
    let alloc = rt.alloc();
    let long = edge(alloc, &[2, 0], 1)?;
    assert!(rt; edge(alloc, &[2], 9)?.compare(&long) == Ordering::Less);
    assert!(rt; edge(alloc, &[2, 0], 0)?.compare(&long) == Ordering::Less);
    assert!(rt; edge(alloc, &[3], 0)?.compare(&long) == Ordering::Greater);
    assert!(rt; long.copy()?.compare(&long) == Ordering::Equal);
    Ok(())
}

fn edge(alloc: Global, path: &[u32], id: u64) -> Result<Edge, Memory> {
    Ok(Edge {
        path: Path::from_slice(alloc, path)?,
        id,
    })
}
